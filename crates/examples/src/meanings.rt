// What texts mean on arguments within budgets, which no command sets; also of texts that no image is made of.

use language::Outcome;
use language::arguments::read;
use source_eval::{EvalFault, eval};
use std::alloc::{AllocError, Global};
use std::process::Abort;
use std::test::Fail;
use syntax::parse;

/// An outcome's word and arrays, or the fault.
fn told(alloc: Global, answer: &Result<Outcome, EvalFault>) -> Result<String, AllocError> {
    match answer {
        Ok(outcome) => format!(in alloc; "{:?} {:?}", outcome.returned(), outcome.arrays()),
        Err(EvalFault::NoMeaning(place)) => format!(in alloc; "E1: no meaning at {place}"),
        Err(fault) => format!(in alloc; "{fault}"),
    }
}

/// What is told of a text on arguments for its export.
fn evaluated(alloc: Global, text: &str, texts: &[&str], budget: u64) -> Result<String, Fail> {
    let program = parse(alloc, text)?;
    let params = match program.exported() {
        Some((_, export)) => export.params(alloc)?,
        None => Vec::new(alloc),
    };
    let args = read(alloc, params.as_slice(), texts)?;
    let answer = eval(alloc, &program, &args, budget);
    Ok(told(alloc, &answer)?)
}

/// This is told of a text on arguments.
fn means(
    rt: &(impl Abort + AllocGlobal),
    text: &str,
    texts: &[&str],
    budget: u64,
    wanted: &str,
) -> Result<(), Fail> {
    let told = evaluated(rt.alloc(), text, texts, budget)?;
    assert!(rt;
        told.as_str() == wanted,
        "{text} {texts:?} {budget}: {told}"
    );
    Ok(())
}

const TAKEN_ONCE: &str = "export secret uint32 f(secret bool t) {\n\
    secret mut bool s = t;\n\
    secret mut uint32 y = 0;\n\
    if (s) { s = false; y = 1; } else { y = 2; }\n\
    return y;\n\
}";

const FILL: &str = "export void f(secret mut uint32[8] a, secret uint32 x) {\n\
    for (uint32 i from 0 to 8) { a[i] = x; }\n\
}";

const NO_ITERATIONS: &str = "export public uint32 f() {\n\
    public mut uint32 c = 7;\n\
    for (uint32 i from 5 to 5) { c = c + i; }\n\
    for (uint32 j from 9 to 2) { c = 0; }\n\
    return c;\n\
}";

const LONG: &str = "export public uint32 f() {\n\
    public mut uint32 y = 0;\n\
    for (uint32 i from 0 to 1000) { for (uint32 j from 0 to 2000) { y = y + j; } }\n\
    return y;\n\
}";

const UNGUARDED: &str =
    "export void f(secret bool s, public uint32 i, secret mut uint32[8] a, secret uint32 x) {\n\
if (s) { a[i] = x; }\n\
}";

const QUOTIENT: &str = "export public uint32 f(public uint32 q, public uint32 d) {\n\
return q / d;\n\
}";

const DROPPED: &str = "secret uint32 g(public uint32 d) {\n\
return 1 / d;\n\
}\n\
export void f(public uint32 d) {\n\
    g(d);\n\
}";

const GIVEN_TWICE: &str = "void g(secret uint32[4] b, secret mut uint32[4] c) { c[0] = b[1]; }\n\
export void f(secret mut uint32[4] a) {\n\
g(a, a);\n\
}";

const ONE_TO_EIGHT: &str = "1,2,3,4,5,6,7,8";

const ZEROS: &str = "0,0,0,0,0,0,0,0";

/// As many nodes as are evaluated are within a budget, and no more.
#[test]
fn a_budget_is_a_number_of_nodes(rt: HostRuntime) -> Result<(), Fail> {
    means(&rt, TAKEN_ONCE, &["1"], 12, "Some(1) []")?;
    means(&rt, TAKEN_ONCE, &["1"], 11, "E2: budget")?;
    means(&rt, TAKEN_ONCE, &["0"], 10, "Some(2) []")?;
    means(&rt, TAKEN_ONCE, &["0"], 9, "E2: budget")?;
    let fives = "None [Numbers { items: [5, 5, 5, 5, 5, 5, 5, 5] }]";
    means(&rt, FILL, &[ZEROS, "5"], 43, fives)?;
    means(&rt, FILL, &[ZEROS, "5"], 42, "E2: budget")?;
    means(&rt, NO_ITERATIONS, &[], 10, "Some(7) []")
}

#[test]
fn evaluates_ten_million_nodes(rt: HostRuntime) -> Result<(), Fail> {
    means(&rt, LONG, &[], 10_004_007, "Some(1999000000) []")?;
    means(&rt, LONG, &[], 10_004_006, "E2: budget")
}

/// What no image is made of means something on some arguments.
#[test]
fn a_fault_is_met_where_it_is_evaluated(rt: HostRuntime) -> Result<(), Fail> {
    let kept = "None [Numbers { items: [1, 2, 3, 4, 5, 6, 7, 8] }]";
    means(&rt, UNGUARDED, &["0", "8", ONE_TO_EIGHT, "9"], 1000, kept)?;
    means(
        &rt,
        UNGUARDED,
        &["1", "8", ONE_TO_EIGHT, "9"],
        1000,
        "E1: no meaning at 2:11",
    )?;
    means(&rt, QUOTIENT, &["10", "3"], 4, "Some(3) []")?;
    means(&rt, QUOTIENT, &["10", "0"], 4, "E1: no meaning at 2:10")?;
    means(&rt, QUOTIENT, &["10", "0"], 3, "E2: budget")?;
    means(&rt, DROPPED, &["2"], 1000, "None []")?;
    means(&rt, DROPPED, &["0"], 1000, "E1: no meaning at 2:10")?;
    // an array is copied for each parameter, and only what may change is copied back
    means(
        &rt,
        GIVEN_TWICE,
        &["1,2,3,4"],
        1000,
        "None [Numbers { items: [2, 2, 3, 4] }]",
    )
}

/// A chain of so many procedures, each of which calls the one before, and the export divides first.
fn chain(alloc: Global, bodies: u32) -> Result<String, AllocError> {
    let mut text = String::from_str(alloc, "void p1(public uint32 d) { }\n")?;
    for number in 2..bodies {
        let callee = number - 1;
        write!(
            text,
            "void p{number}(public uint32 d) {{ p{callee}(d); }}\n"
        )?;
    }
    let callee = bodies.saturating_sub(1);
    write!(
        text,
        "export void f(public uint32 d) {{ p{callee}(1 / d); }}\n"
    )?;
    Ok(text)
}

#[test]
fn opens_at_most_64_bodies(rt: HostRuntime) -> Result<(), Fail> {
    let most = chain(rt.alloc(), 64)?;
    means(&rt, most.as_str(), &["1"], 100_000, "None []")?;
    let more = chain(rt.alloc(), 65)?;
    means(&rt, more.as_str(), &["1"], 100_000, "E2: budget")?;
    means(
        &rt,
        more.as_str(),
        &["0"],
        100_000,
        "E1: no meaning at 65:40",
    )
}
