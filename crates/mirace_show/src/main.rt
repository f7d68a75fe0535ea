//! The program `mirace_show`: a run of a program under a recorded schedule, as people read it. The head of `mr_show` has
//! the forms, and the promises of its call; `run` asks for the words and makes the end of the process (`src/ending.rt`),
//! which `main` returns. Where the order of `fill P O` can't go on, the error output tells where (`src/halting.rt`), and the
//! schedule stays a schedule.
#![tactic(auto)]

mod ending;
mod halting;

use crate::ending::{Ending, run};
use crate::halting::tell_halt;
use mr_io::{HostFiles, HostOut};

fn main(rt: HostRuntime) -> Ending {
    let mut out = HostOut::new(rt.stdout());
    let mut files = HostFiles::new(&rt);
    let ending = run(rt.alloc(), &rt, &mut files, &mut out);
    if ending.is_partial() {
        let mut err = HostOut::new(rt.stderr());
        tell_halt(rt.alloc(), &rt, &mut files, &mut err);
    }
    ending
}
