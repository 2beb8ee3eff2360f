//! A side that closes its channel, and what is shut out then.

use crate::gates::Manner;
use crate::reports::{Run, Wanted, is_as, report_of};
use crate::scenarios::TURNS;
use running::Counts;

// A closes, owes a signature that it may not make any more, and closes again. Its newest commitment, of number 2, waits twice and is mined once.
const CLOSES: &str = "[\"close\",\"A\",0],[\"sign\",\"A\",0],[\"close\",\"A\",0],[\"blocks\",2]";

// The signature alone is refused. Of the newest commitment A releases what it is paid after the delay, and B what it is paid at once, and neither releases anything else.
const CLOSED: Wanted = Wanted {
    height: 2,
    counts: Counts {
        played: TURNS + 2,
        refused: 1,
    },
    calls_of_a: 11,
    calls_of_b: 11,
    releases_of_a: 1,
    releases_of_b: 1,
    is_kept: true,
};

#[test]
fn closes_with_the_newest_commitment(rt: HostRuntime) {
    for workers in [1, 4] {
        let run = Run {
            has_two: false,
            workers,
            manner: Manner::Open,
        };
        assert!(rt; is_as(&report_of(&rt, rt.alloc(), &run, CLOSES), &run, &CLOSED));
    }
}
