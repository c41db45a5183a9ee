// What a page begins with, and its legends.

ghost use Rattle.std.specs.Prelude.{◌≡◌};
ghost use Rattle.run_reports.specs.pictures.Constants.{front, before_asked, before_said, legend, legend_of_two};

/// Up to the title.
const FRONT: &str = "<!DOCTYPE html>\n\
<html lang=\"en\">\n\
<head>\n\
<meta charset=\"utf-8\">\n\
<meta name=\"viewport\" content=\"width=device-width, initial-scale=1\">\n\
<title>";

/// Behind the title, up to what was asked for.
const BEFORE_ASKED: &str = "</title>\n\
<style>\n\
:root { color-scheme: light dark; --page: #fff; --ink: #1d2125; --area: #eff1f3 }\n\
:root { --fetch: #8b959f; --load: #2f6fdb; --store: #12876a; --both: #7b52c7 }\n\
:root { --one: #d81e3a; --other: #f08c00 }\n\
@media (prefers-color-scheme: dark) {\n\
:root { --page: #16181b; --ink: #e3e6e9; --area: #23272b }\n\
:root { --fetch: #78838e; --load: #5b9bff; --store: #2fc296; --both: #a98bf5 }\n\
:root { --one: #ff4d63; --other: #ffb340 } }\n\
body { margin: 2rem auto; max-width: 75rem; padding: 0 1rem }\n\
body { background: var(--page); color: var(--ink); font: 1rem/1.5 system-ui, sans-serif }\n\
h1 { font-size: 1.5rem; margin: 0 }\n\
#asked { overflow-wrap: anywhere; white-space: pre-wrap }\n\
h2 { font-size: 1.1rem; margin: 1.25rem 0 .25rem }\n\
pre { background: var(--area); padding: .5rem .75rem; overflow: auto }\n\
#asked, pre, .addresses, .steps { font-family: ui-monospace, monospace }\n\
.area { display: grid; grid-template-columns: 5rem 1fr; gap: .5rem }\n\
.addresses { display: flex; flex-direction: column; justify-content: space-between; text-align: right }\n\
.steps { display: flex; justify-content: space-between; margin: .25rem 0 0 5.5rem }\n\
.addresses, .steps { font-size: .8rem; line-height: 1 }\n\
svg { width: 100%; height: 18rem; background: var(--area); transform: scaleY(-1) }\n\
#elsewhere { height: 1rem }\n\
path { fill: none; stroke-width: 1; shape-rendering: crispEdges }\n\
path.one, path.other { stroke-width: .5 }\n\
path.parting { stroke-width: 2px; vector-effect: non-scaling-stroke }\n\
g path { stroke: none; pointer-events: stroke }\n\
path.one { transform: translate(0, .25px) }\n\
path.other { transform: translate(0, -.25px) }\n\
.fetch { stroke: var(--fetch); background: var(--fetch) }\n\
.load { stroke: var(--load); background: var(--load) }\n\
.store { stroke: var(--store); background: var(--store) }\n\
.both { stroke: var(--both); background: var(--both) }\n\
.one { stroke: var(--one); background: var(--one) }\n\
.other { stroke: var(--other); background: var(--other) }\n\
.parting { stroke: var(--ink); background: var(--ink) }\n\
ul { list-style: none; padding: 0; display: flex; flex-wrap: wrap; gap: .25rem 1.5rem }\n\
.key { display: inline-block; width: .9em; height: .9em; margin-right: .4em; vertical-align: -.1em }\n\
</style>\n\
</head>\n\
<body>\n\
<h1>What an observer sees</h1>\n\
<p id=\"asked\">";

/// Behind that, up to what is said of the runs.
const BEFORE_SAID: &str = "</p>\n\
<p>Steps run to the right, addresses upwards.\n\
A cell shows all that its steps do at its addresses, and says it under the pointer.</p>\n\
<pre id=\"said\">\n";

/// What colours stand for.
const LEGEND: &str = "<li><span class=\"key fetch\"></span>an instruction is executed</li>\n\
<li><span class=\"key load\"></span>a load</li>\n\
<li><span class=\"key store\"></span>a store</li>\n\
<li><span class=\"key both\"></span>loads and stores</li>\n";

/// What they stand for besides where there are two runs.
const LEGEND_OF_TWO: &str =
    "<li><span class=\"key one\"></span>in the first run alone (upper half)</li>\n\
<li><span class=\"key other\"></span>in the second run alone (lower half)</li>\n\
<li><span class=\"key parting\"></span>the first step in which they part</li>\n";

/// What a page begins with, up to the title.
#[tactic(auto, unfolding(crate::specs::pictures::Constants::front))]
pub fn front() -> &'static str
    ensures { result.now ≡ front }
{
    FRONT
}

/// What stands behind the title, up to what was asked for.
#[tactic(auto, unfolding(crate::specs::pictures::Constants::before_asked))]
pub fn before_asked() -> &'static str
    ensures { result.now ≡ before_asked }
{
    BEFORE_ASKED
}

/// What stands behind that, up to what is said of the runs.
#[tactic(auto, unfolding(crate::specs::pictures::Constants::before_said))]
pub fn before_said() -> &'static str
    ensures { result.now ≡ before_said }
{
    BEFORE_SAID
}

/// The legend of accesses.
#[tactic(auto, unfolding(crate::specs::pictures::Constants::legend))]
pub fn legend() -> &'static str
    ensures { result.now ≡ legend }
{
    LEGEND
}

/// The legend of differences.
#[tactic(auto, unfolding(crate::specs::pictures::Constants::legend_of_two))]
pub fn legend_of_two() -> &'static str
    ensures { result.now ≡ legend_of_two }
{
    LEGEND_OF_TWO
}
