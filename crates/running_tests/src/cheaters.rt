//! A cheater, who broadcasts its revoked commitment and then the transaction of its HTLC.

use crate::gates::Manner;
use crate::reports::{Run, Wanted, is_as, report_of};
use crate::scenarios::TURNS;
use running::Counts;

pub(crate) const CHEATS: &str =
    "[\"broadcast\",\"A\",0,1],[\"blocks\",5],[\"broadcast\",\"A\",0,1,0],[\"blocks\",1],[\"blocks\",1]";

// The same in both channels.
const CHEATS_TWICE: &str =
    "[\"broadcast\",\"A\",0,1],[\"broadcast\",\"A\",1,1],[\"blocks\",5],[\"broadcast\",\"A\",1,1,0],[\"broadcast\",\"A\",0,1,0],[\"blocks\",1],[\"blocks\",1]";

// The same in one channel, and then two blocks are replaced.
pub(crate) const CHEATS_THEN_REORG: &str =
    "[\"broadcast\",\"A\",0,1],[\"blocks\",5],[\"broadcast\",\"A\",0,1,0],[\"blocks\",1],[\"blocks\",1],[\"reorg\",2,0]";

// The commitment comes by a reorganisation alone. A watcher that does not notice it reads blocks that no longer stand, and finds nothing.
const CHEATS_BY_REORG: &str = "[\"blocks\",6],[\"broadcast\",\"A\",0,1],[\"reorg\",6,0]";

// All turns were played, each side kept what it may, and B's workers released its four claims.
const PUNISHED: Wanted = Wanted {
    height: 7,
    counts: Counts {
        played: TURNS,
        refused: 0,
    },
    calls_of_a: 8,
    calls_of_b: 14,
    releases_of_a: 0,
    releases_of_b: 4,
    is_kept: true,
};

const fn open(workers: u16) -> Run {
    Run {
        has_two: false,
        workers,
        manner: Manner::Open,
    }
}

#[test]
fn punishes(rt: HostRuntime) {
    for workers in [1, 4, 16] {
        let run = open(workers);
        assert!(rt; is_as(&report_of(&rt, rt.alloc(), &run, CHEATS), &run, &PUNISHED));
    }
}

// The first job of one side is held until that of the other is done, and in another run the first job of a side until the penalties of the other channel are kept.
#[test]
fn punishes_while_a_worker_is_held(rt: HostRuntime) {
    for workers in [1, 2] {
        let first = Run {
            has_two: false,
            workers,
            manner: Manner::HoldsFirst,
        };
        assert!(rt;
            is_as(
                &report_of(&rt, rt.alloc(), &first, CHEATS),
                &first,
                &PUNISHED
            )
        );
    }
    let other = Run {
        has_two: true,
        workers: 2,
        manner: Manner::HoldsForOther,
    };
    assert!(rt;
        is_as(
            &report_of(&rt, rt.alloc(), &other, CHEATS_TWICE),
            &other,
            &PUNISHED
        )
    );
}

#[test]
fn punishes_through_reorganisations(rt: HostRuntime) {
    let run = open(4);
    let higher = Wanted {
        height: 8,
        ..PUNISHED
    };
    assert!(rt;
        is_as(
            &report_of(&rt, rt.alloc(), &run, CHEATS_THEN_REORG),
            &run,
            &higher
        )
    );
    for _ in 0..8 {
        assert!(rt;
            is_as(
                &report_of(&rt, rt.alloc(), &run, CHEATS_BY_REORG),
                &run,
                &PUNISHED
            )
        );
    }
}

// All workers stop, and drop their first job; one more is left in their queue. So B's second signature is refused in each channel, and the two deliveries after it find no message.
#[test]
fn ends_without_workers(rt: HostRuntime) {
    let run = Run {
        has_two: true,
        workers: 1,
        manner: Manner::Shut,
    };
    let refused = Wanted {
        height: 7,
        counts: Counts {
            played: TURNS - 3,
            refused: 3,
        },
        calls_of_a: 6,
        calls_of_b: 6,
        releases_of_a: 0,
        releases_of_b: 0,
        is_kept: false,
    };
    assert!(rt; is_as(&report_of(&rt, rt.alloc(), &run, CHEATS), &run, &refused));
}
