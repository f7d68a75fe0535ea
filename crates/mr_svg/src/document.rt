//! What stands round the marks of a document.
ghost use Rattle.std.specs.Prelude.{◌≡◌, ◌++◌, OnOk};
ghost use Rattle.mr_svg.specs.Style.{style_text};
ghost use Rattle.mr_svg.specs.Svg.{foot_text, head_text, opening_text, size_text};

use crate::OutOfMemory;
use crate::escape::push_escaped;
use crate::mark::{push, push_number};

// How each sign is drawn, in a light and a dark scheme, and the heads of arrows.
const STYLE: &str = "\
<style>
text{font:13px ui-monospace,Menlo,Consolas,DejaVu Sans Mono,monospace;white-space:pre;fill:#16181b}
path{fill:none;stroke-width:1.5;stroke:#16181b}
.paper{stroke:none;fill:#fff}
.row path{stroke:none;fill:#f2f4f6}
.lane path{stroke-width:2;stroke:#8a929b}
.step path{fill:#16181b;stroke:#fff}
.racing path{fill:#c11a20;stroke:#fff}
.stop path{stroke-width:2.5;fill:#fff}
.wake path{stroke-width:2;stroke-dasharray:2 3;marker-end:url(#wakes);stroke:#1a7f37}
.dependence path{stroke-width:2;marker-end:url(#depends);stroke:#0b57a4}
.machine-order path{stroke-width:2;stroke-dasharray:9 3 2 3;marker-end:url(#depends);stroke:#0b57a4}
.race path{stroke-width:2;stroke-dasharray:8 4;stroke:#c11a20}
.first-race path{stroke-width:4;stroke-dasharray:8 4;stroke:#c11a20}
.left-out path{stroke-dasharray:2 2;fill:#fff;stroke:#6b727a}
.left-out text{fill:#6b727a}
.title text{font-weight:bold}
.name text{font-weight:bold}
.note text{fill:#4d545c}
#wakes path{fill:none;stroke-dasharray:none;marker-end:none;stroke:#1a7f37}
#depends path{stroke:none;marker-end:none;fill:#0b57a4}
@media (prefers-color-scheme:dark){
text{fill:#f0f2f4}
path{stroke:#f0f2f4}
.paper{fill:#14171b}
.row path{fill:#1f242a}
.lane path{stroke:#7c858f}
.step path{fill:#f0f2f4;stroke:#14171b}
.racing path{fill:#ff7a72;stroke:#14171b}
.stop path{fill:#14171b}
.wake path{stroke:#63d47f}
.dependence path{stroke:#79b8ff}
.machine-order path{stroke:#79b8ff}
.race path{stroke:#ff7a72}
.first-race path{stroke:#ff7a72}
.left-out path{fill:#14171b;stroke:#98a1ab}
.left-out text{fill:#98a1ab}
.note text{fill:#b3bac2}
#wakes path{stroke:#63d47f}
#depends path{fill:#79b8ff}
}
</style>
<defs>
<marker id=\"wakes\" viewBox=\"0 0 10 10\" refX=\"18\" refY=\"5\" markerWidth=\"9\" markerHeight=\"9\" \
markerUnits=\"userSpaceOnUse\" orient=\"auto\"><path d=\"M1 1L9 5L1 9\"/></marker>
<marker id=\"depends\" viewBox=\"0 0 10 10\" refX=\"18\" refY=\"5\" markerWidth=\"9\" markerHeight=\"9\" \
markerUnits=\"userSpaceOnUse\" orient=\"auto\"><path d=\"M0 0L10 5L0 10z\"/></marker>
</defs>
";

// Appends how wide and how high a document is.
fn push_size(out: &mut Vec<u8>, wide: u64, high: u64) -> Result<(), OutOfMemory>
    ensures { OnOk result (out.new.items ≡ out.old.items ++ size_text wide high) }
{
    push(out, " width=\"")?;
    push_number(out, wide)?;
    push(out, "\" height=\"")?;
    push_number(out, high)?;
    push(out, "\" viewBox=\"0 0 ")?;
    push_number(out, wide)?;
    push(out, " ")?;
    push_number(out, high)?;
    push(out, "\"")
}

// How each sign is drawn.
fn style() -> &'static str
    ensures { result.now ≡ style_text }
{
    STYLE
}

// Appends the opening of a document that is so wide and so high, with its title.
fn push_opening(out: &mut Vec<u8>, wide: u64, high: u64, title: &[u8]) -> Result<(), OutOfMemory>
    ensures { OnOk result (out.new.items ≡ out.old.items ++ opening_text wide high title.now) }
{
    push(out, "<svg xmlns=\"http://www.w3.org/2000/svg\"")?;
    push_size(out, wide, high)?;
    push(out, " xml:space=\"preserve\" role=\"img\">\n<title>")?;
    push_escaped(out, title)?;
    push(out, "</title>\n")
}

/// Appends what stands before the marks of a document that is so wide and so high. An `Err` is for want of memory.
pub fn push_head(out: &mut Vec<u8>, wide: u64, high: u64, title: &[u8]) -> Result<(), OutOfMemory>
    ensures { OnOk result (out.new.items ≡ out.old.items ++ head_text wide high title.now) }
{
    push_opening(out, wide, high, title)?;
    push(out, style())?;
    push(
        out,
        "<rect class=\"paper\" width=\"100%\" height=\"100%\"/>\n",
    )
}

/// Appends what stands behind the marks. An `Err` is for want of memory.
pub fn push_foot(out: &mut Vec<u8>) -> Result<(), OutOfMemory>
    ensures { OnOk result (out.new.items ≡ out.old.items ++ foot_text) }
{
    push(out, "</svg>\n")
}
