// Runs on memories and with recorders that no command takes. The words are an assembler's, and what they do was worked
// out by hand.

ghost use Rattle.std.specs.Prelude.{◌≤◌, length};

use rv_machine::hart::Hart;
use rv_machine::memory::Memory;
use rv_machine::recording::Recorder;
use rv_machine::{
    AddressRange, CodeRegion, Event, FlatMemory, ListRecorder, Observation, PagedMemory, Size,
    Stop, run,
};
use std::alloc::AllocError;
use std::process::Abort;
use std::test::Fail;

const CODE: u32 = 0x0001_0000;

const DATA: u32 = 0x1000_0000;

/// Each of these loads, from an address, gives this.
fn has(rt: &(impl Abort + AllocGlobal), memory: &impl Memory, loads: &[(u32, Size, Option<u32>)]) {
    for (address, size, word) in loads {
        assert_eq!(rt; memory.load(*address, *size), *word, "at {address:08x}");
    }
}

/// sw x2, 4(x2); lb x5, 7(x2); ecall
#[test]
fn a_run_is_recorded(rt: HostRuntime) -> Result<(), Fail> {
    let code = CodeRegion::new(rt.alloc(), CODE, &[0x0021_2223, 0x0071_0283, 0x0000_0073])?;
    let mut memory = FlatMemory::new(rt.alloc(), DATA, 8)?;
    let mut hart = Hart::new(CODE, DATA);
    let mut recorder = ListRecorder::new(rt.alloc());
    let stop = run(&mut hart, &code, &mut memory, &mut recorder, 10);
    assert_eq!(rt; stop, Stop::Ecall);
    let shown = [
        Observation {
            pc: CODE,
            event: Some(Event::Store(DATA + 4, Size::Word)),
        },
        Observation {
            pc: CODE + 4,
            event: Some(Event::Load(DATA + 7, Size::Byte)),
        },
        Observation {
            pc: CODE + 8,
            event: None,
        },
    ];
    assert_eq!(rt; recorder.list(), shown.as_slice());
    has(
        &rt,
        &memory,
        &[
            (DATA, Size::Word, Some(0)),
            (DATA + 4, Size::Word, Some(DATA)),
        ],
    );
    Ok(())
}

/// Refuses every observation.
#[derive(Drop)]
struct Refuser {
    refusals: u64,
}

impl Recorder for Refuser {
    ghost use Rattle.std.specs.Prelude.{false, []};

    ghost KEEPS = { false };

    ghost list = { λ _. [] };

    ghost refusals = { λ r. r.refusals };

    ghost is_ready = { λ _ _. ⊥ };

    const KEEPS: bool = false;

    fn note(&mut self, _o: Observation) -> Result<(), AllocError> {
        self.refusals = self.refusals.saturating_add(1);
        Err(AllocError)
    }
}

/// sw x2, 0(x2)
#[test]
fn does_nothing_after_a_refused_record(rt: HostRuntime) -> Result<(), Fail> {
    let code = CodeRegion::new(rt.alloc(), CODE, &[0x0021_2023])?;
    let mut memory = FlatMemory::new(rt.alloc(), DATA, 4)?;
    let mut hart = Hart::new(CODE, DATA);
    let mut recorder = Refuser { refusals: 0 };
    let stop = run(&mut hart, &code, &mut memory, &mut recorder, 10);
    assert_eq!(rt; stop, Stop::RecorderRefused);
    assert_eq!(rt; recorder.refusals, 1);
    assert_eq!(rt; hart.pc(), CODE);
    has(&rt, &memory, &[(DATA, Size::Word, Some(0))]);
    Ok(())
}

/// With ample memory a stretch of any length is there from its first byte to its last.
#[test]
fn keeps_the_first_and_the_last_of_many_bytes(rt: HostRuntime) -> Result<(), Fail> {
    let mut memory = FlatMemory::new(rt.alloc(), DATA, 65_536)?;
    assert!(rt; memory.store(DATA, Size::Byte, 0x1ab));
    assert!(rt; memory.store(DATA + 65_535, Size::Byte, 0xcd));
    assert!(rt; !memory.store(DATA + 65_536, Size::Byte, 1));
    let loads = [
        (DATA, Size::Byte, Some(0xab)),
        (DATA + 65_532, Size::Word, Some(0xcd00_0000)),
        (DATA + 65_535, Size::Half, None),
    ];
    has(&rt, &memory, &loads);
    Ok(())
}

/// Two ranges that share no byte, of which the second one is longer than two pages.
const RANGES: [AddressRange; 2] = [
    AddressRange {
        begin: 0x1000_0000,
        end: 0x1000_0008,
    },
    AddressRange {
        begin: 0x1000_0010,
        end: 0x1000_2014,
    },
];

#[test]
fn keeps_the_bytes_of_ranges_alone(rt: HostRuntime) -> Result<(), Fail> {
    let mut memory = PagedMemory::new(rt.alloc(), &RANGES)?;
    assert!(rt; memory.store(0x1000_0004, Size::Word, 0x1234_5678));
    assert!(rt; !memory.store(0x1000_000e, Size::Word, 1));
    assert!(rt; memory.store(0x1000_100d, Size::Word, 0x1234_5678));
    assert!(rt; memory.store(0x1000_2013, Size::Byte, 0xff));
    assert!(rt; !memory.store(0x1000_2014, Size::Byte, 1));
    let loads = [
        (0x1000_0006, Size::Half, Some(0x1234)),
        (0x1000_0006, Size::Word, None),
        (0x1000_0008, Size::Byte, None),
        (0x1000_000f, Size::Byte, None),
        (0x1000_0010, Size::Half, Some(0)),
        // across two pages
        (0x1000_100d, Size::Word, Some(0x1234_5678)),
        (0x1000_100f, Size::Half, Some(0x1234)),
        (0x1000_1010, Size::Byte, Some(0x12)),
        (0x1000_2010, Size::Word, Some(0xff00_0000)),
    ];
    has(&rt, &memory, &loads);
    Ok(())
}

/// The last bytes of all, and no range.
#[test]
fn has_the_last_bytes_and_none(rt: HostRuntime) -> Result<(), Fail> {
    let end = AddressRange {
        begin: 0xffff_fffc,
        end: 0x1_0000_0000,
    };
    let memory = PagedMemory::new(rt.alloc(), &[end])?;
    has(
        &rt,
        &memory,
        &[
            (0xffff_fffc, Size::Word, Some(0)),
            (0xffff_ffff, Size::Half, None),
        ],
    );
    let none = PagedMemory::new(rt.alloc(), &[])?;
    has(&rt, &none, &[(0, Size::Byte, None)]);
    Ok(())
}
