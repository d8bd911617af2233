// The order of the steps: which comes next. No step here looks at the shared memory.
ghost use Rattle.std.specs.Prelude.{◌≡◌, true, false};
ghost use Rattle.steps.specs.Rules.{above as above_of, resume, advance as advance_of, after_refresh, of_child};

use steps::{After, Refresh, Step, Visit};

// After the last refresh of v its parent is refreshed. Nothing is above the root (node 1), so there the operation is
// answered.
pub fn above(v: u32) -> Step
    ensures { result ≡ above_of v }
{
    if v == 1 {
        return Step::Q;
    }
    Step::R1 {
        refresh: Refresh::First,
        node: v / 2,
    }
}

// What follows the advance of a child: R4 after that of the left one, C1 after that of the right one.
pub fn after_child(a: After, w: Visit) -> Step
    requires { of_child a ≡ true }
    ensures { result ≡ resume a w }
{
    match a {
        After::Right => Step::R4 { visit: w },
        After::Ends => Step::C1 { visit: w },
        After::Again => Step::C1 { visit: w },
        After::Up => Step::C1 { visit: w },
    }
}

// What follows the advance of the own leaf or of the refreshed node: the second refresh, or the way up.
pub fn after_own(a: After, w: Visit) -> Step
    requires { of_child a ≡ false }
    ensures { result ≡ resume a w }
{
    match a {
        After::Again => Step::R1 {
            refresh: Refresh::Second,
            node: w.node,
        },
        After::Right | After::Ends | After::Up => above(w.node),
    }
}

// The first step of an advance. Super of a root block stays 0, so at the root only the head is raised.
pub fn advance(w: Visit, a: After, v: u32, h: u32) -> Step
    ensures { result ≡ advance_of w a v h }
{
    if v == 1 {
        return Step::V3 {
            after: a,
            visit: w,
            node: v,
            place: h,
        };
    }
    Step::V1 {
        after: a,
        visit: w,
        node: v,
        place: h,
    }
}

// A refresh that failed is done once more. A second failure means that others have carried the operation up, so two are
// enough.
pub fn after_refresh(refresh: Refresh, success: bool) -> After
    ensures { result ≡ after_refresh refresh success }
{
    if success {
        return After::Up;
    }
    match refresh {
        Refresh::First => After::Again,
        Refresh::Second => After::Up,
    }
}
