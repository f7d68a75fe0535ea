//! The laws of pictures.
ghost use Rattle.std.specs.Prelude.{◌≡◌, ◌<◌, ◌≤◌, ◌^◌, ◌↔◌, All, List, Option, Some, length};
ghost use Rattle.std.specs.List.{Contains};
ghost use Rattle.mr_event.specs.declared.footprint.Pair.{Pair};
ghost use Rattle.mr_rust_order.specs.Order.{HappensBefore};
ghost use Rattle.mr_svg.specs.declared.shape.Sign.{Sign};
ghost use Rattle.mr_svg.specs.declared.shape.Sign.TheVariants.{MachineOrder};
ghost use Rattle.mr_picture.specs.declared.scene.Drawn.{Drawn};
ghost use Rattle.mr_picture.specs.declared.span.Span.{Span};
ghost use Rattle.mr_listing.specs.Seen.{Seen};
ghost use Rattle.mr_listing.specs.declared.held.StepValues.{StepValues};
ghost use Rattle.mr_picture.specs.Arrows.{arrows};
ghost use Rattle.mr_picture.specs.Clear.{IsClearOf};
ghost use Rattle.mr_labels.specs.declared.step.Stand.{Stand};
ghost use Rattle.mr_labels.specs.declared.step.ToldStep.{ToldStep};
ghost use Rattle.mr_picture.specs.Drawn.{StandsIn, asked_scene, name_of, names_of};
ghost use Rattle.mr_picture.specs.Grid.{width};
ghost use Rattle.mr_picture.specs.Inside.{IsInside};
ghost use Rattle.mr_picture.specs.Legend.{IsDrawn, height, legend_order, legend_signs};
ghost use Rattle.mr_picture.specs.Picture.{marks};
ghost use Rattle.mr_picture.specs.Links.{arrow_mark, race_mark};
ghost use Rattle.mr_picture.specs.Scene.{Scene, Sketch, done_in, near_in, scene_of};
ghost use Rattle.mr_picture.specs.Span.{races_in};
ghost use Rattle.mr_picture.specs.Steps.{at_step};

/// A law: each mark of the picture of a run lies inside it. A run has no more than 2^22 steps.
pub fn marks_lie_inside()
    // Of any run of which these steps are drawn.
    ensures sketch { (s : Sketch) (span : Span) (steps : List Drawn) → span.to ≤ 2 ^ 22
        → All (λ d. (span.from ≤ d.number) × (d.number < span.to)) steps
        → All (IsInside (width (scene_of s span steps)) (height (scene_of s span steps))) (marks (scene_of s span steps)) }

    // Of the run of a program.
    ensures program { (s : Seen) (values : List StepValues) (asked : Option Span) → s.count ≤ 2 ^ 22
        → All (IsInside (width (asked_scene s values asked)) (height (asked_scene s values asked)))
        (marks (asked_scene s values asked)) }
{}

/// A law: no arrow and no line of a race comes near the mark of a drawn step that isn't one of its two.
pub fn links_keep_clear()
    ensures arrows { (s : Sketch) (span : Span) (steps : List Drawn) (step : Drawn) → span.from ≤ step.number
        → (arrow : Pair) → Contains (arrows s.feet (done_in span (length s.feet))) arrow
        → ¬ step.number ≡ arrow.first → ¬ step.number ≡ arrow.second
        → IsClearOf (at_step (scene_of s span steps) step) (arrow_mark (scene_of s span steps) arrow).shape }
    ensures races { (s : Sketch) (span : Span) (steps : List Drawn) (step : Drawn) → span.from ≤ step.number
        → (race : Pair) → Contains (races_in (done_in span (length s.feet)) (near_in span s.races)) race
        → ¬ step.number ≡ race.first → ¬ step.number ≡ race.second
        → IsClearOf (at_step (scene_of s span steps) step) (race_mark (scene_of s span steps) race).shape }
{}

/// A law: the legend has a row for each of its signs that a mark of the run has, and for no other one.
pub fn legend_tells_what_is_drawn()
    ensures { (s : Scene) (sign : Sign) → Contains (legend_signs s) sign ↔ (Contains legend_order sign × IsDrawn s sign) }
{}

/// A law: where a told step of a program's run started a thread, the names of the threads have its name, with the function
/// in which it stands behind that step: it is the one with which it began.
pub fn started_threads_are_named()
    ensures { (s : Seen) (told : ToldStep) (stand : Stand) → Contains s.steps told → told.started ≡ Some stand
        → StandsIn (name_of s stand.thread stand.function) (names_of s) }
{}

/// A law: an arrow is drawn as one of the machine's order alone exactly where its first step doesn't happen before its
/// second one by Rust's order.
pub fn arrows_tell_whose_they_are()
    ensures { (s : Scene) (arrow : Pair) → arrow.first < arrow.second
        → ((arrow_mark s arrow).sign ≡ MachineOrder) ↔ ¬ HappensBefore s.sketch.feet arrow.first arrow.second }
{}
