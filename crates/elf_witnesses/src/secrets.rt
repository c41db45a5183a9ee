// What secrets are in two runs that are compared.

ghost use Rattle.std.specs.Prelude.{◌≡◌, ◌-◌, ◌<◌, IfOk, length, map};
ghost use Rattle.rand_core.specs.Stream.{fill_bytes};
ghost use Rattle.elf_witnesses.specs.Below.{object_named};
ghost use Rattle.elf_memory.specs.Objects.{size_of};
ghost use Rattle.elf_witnesses.specs.Drawn.{behind_place, first_bytes, first_secrets, flipped, numbers_of, other_bytes};
ghost use Rattle.elf_witnesses.specs.Drawn.{other_secrets, size_in, with_bit_flipped};
ghost use Rattle.elf_witnesses.specs.Witnessed.{secret_size, set_bytes, set_size, SetEachSecret};

use elf::Program;
use elf_memory::{Secret, Setting};
use rand_core::Rng;
use rand_pcg::Pcg32;
use std::alloc::{AllocError, Global};

/// Puts into bytes what a secret is in the first run of a try: zeros or pseudo-random bytes, in turn.
fn first_bytes(
    alloc: Global,
    random: &mut Pcg32,
    attempt: u64,
    size: usize,
) -> Result<Vec<u8>, AllocError>
    ensures size { IfOk result (λ bytes. length bytes.items ≡ size) }
    ensures drawn { IfOk result (λ bytes.
        (bytes.items, numbers_of random.new) ≡ first_bytes attempt size (numbers_of random.old)) }
{
    let mut bytes = vec![in alloc; 0u8; size]?;
    if attempt % 2 == 1 {
        random.fill_bytes(&mut bytes);
    }
    Ok(bytes)
}

/// Flips each bit.
fn flip(bytes: &mut [u8])
    ensures { bytes.new ≡ flipped bytes.old }
{
    'bytes: for byte in bytes.iter_mut() {
        *byte = !*byte;
    }
}

/// Flips one bit of the byte at a place.
fn flip_bit(bytes: &mut [u8], place: usize, bit: u32)
    requires within { place < length bytes.old }
    requires bit { bit < 8 }
    ensures { bytes.new ≡ with_bit_flipped bytes.old place bit }
{
    bytes[place] ^= 1 << bit;
}

/// Puts other pseudo-random bytes from a place on.
fn change_behind(random: &mut Pcg32, bytes: &mut [u8], place: usize)
    requires { place < length bytes.old }
    ensures { (bytes.new, numbers_of random.new)
        ≡ behind_place bytes.old place (fill_bytes (length bytes.old - place) (numbers_of random.old)) }
{
    random.fill_bytes(&mut bytes[place..]);
}

/// What a secret is in the second run of a try, by what it is in the first. A comparison that stops where bytes differ
/// shows how far they agree, and a branch on a bit shows that bit: so there are, in turn, all bits flipped, other
/// pseudo-random bytes, one bit flipped, and other bytes from a pseudo-random place on.
fn change(random: &mut Pcg32, attempt: u64, bytes: &mut [u8])
    ensures { (bytes.new, numbers_of random.new) ≡ other_bytes attempt bytes.old (numbers_of random.old) }
{
    if bytes.is_empty() {
        return;
    }
    let number = random.next_u64();
    let place = (number % bytes.len() as u64) as usize;
    match attempt / 2 % 4 {
        0 => flip(bytes),
        1 => random.fill_bytes(bytes),
        2 => flip_bit(bytes, place, (number >> 61) as u32),
        _ => change_behind(random, bytes, place),
    }
}

/// How many bytes a secret has; none where it is no object.
fn size_of(program: &Program<'_>, secret: &Secret) -> usize
    ensures { result ≡ size_of (object_named program.now secret.now.object.items) }
{
    match program.object(&secret.object) {
        Some(object) => object.size as usize,
        None => 0,
    }
}

/// What a secret is in the first run of a try.
fn first_setting(
    alloc: Global,
    program: &Program<'_>,
    secret: &Secret,
    random: &mut Pcg32,
    attempt: u64,
) -> Result<Setting, AllocError>
    ensures alike { IfOk result (λ setting. set_size setting ≡ secret_size program.now secret.now) }
    ensures drawn { IfOk result (λ setting. (set_bytes setting, numbers_of random.new)
        ≡ first_bytes attempt (size_in program.now secret.now) (numbers_of random.old)) }
{
    let bytes = first_bytes(alloc, random, attempt, size_of(program, secret))?;
    let object = Vec::from_slice(alloc, &secret.object)?;
    Ok(Setting { object, bytes })
}

/// What the secrets are in the first run of a try.
pub(crate) fn first_secrets(
    alloc: Global,
    program: &Program<'_>,
    secrets: &[Secret],
    random: &mut Pcg32,
    attempt: u64,
) -> Result<Vec<Setting>, AllocError>
    ensures each { IfOk result (λ settings. SetEachSecret program.now secrets.now settings.items) }
    ensures drawn { IfOk result (λ settings. (map set_bytes settings.items, numbers_of random.new)
        ≡ first_secrets attempt (map (size_in program.now) secrets.now) (numbers_of random.old)) }
{
    let mut settings = Vec::new(alloc);
    'secrets: for secret in secrets {
        settings.push(first_setting(alloc, program, secret, random, attempt)?)?;
    }
    Ok(settings)
}

/// What a secret is in the second run, by what it is in the first.
fn other_setting(
    alloc: Global,
    first: &Setting,
    random: &mut Pcg32,
    attempt: u64,
) -> Result<Setting, AllocError>
    ensures alike { IfOk result (λ setting. set_size setting ≡ set_size first.now) }
    ensures drawn { IfOk result (λ setting. (set_bytes setting, numbers_of random.new)
        ≡ other_bytes attempt (set_bytes first.now) (numbers_of random.old)) }
{
    let mut bytes = Vec::from_slice(alloc, &first.bytes)?;
    change(random, attempt, &mut bytes);
    let object = Vec::from_slice(alloc, &first.object)?;
    Ok(Setting { object, bytes })
}

/// What they are in the second run, by what they are in the first.
pub(crate) fn other_secrets(
    alloc: Global,
    firsts: &[Setting],
    random: &mut Pcg32,
    attempt: u64,
) -> Result<Vec<Setting>, AllocError>
    ensures each { IfOk result (λ settings. map set_size settings.items ≡ map set_size firsts.now) }
    ensures drawn { IfOk result (λ settings. (map set_bytes settings.items, numbers_of random.new)
        ≡ other_secrets attempt (map set_bytes firsts.now) (numbers_of random.old)) }
{
    let mut settings = Vec::new(alloc);
    'firsts: for first in firsts {
        settings.push(other_setting(alloc, first, random, attempt)?)?;
    }
    Ok(settings)
}
