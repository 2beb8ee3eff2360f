//! What is broadcast: a reorganisation that forgets transactions is refused where there are fewer.

use crate::gates::Manner;
use crate::reports::{Run, report_of};

const RUN: Run = Run {
    has_two: false,
    workers: 2,
    manner: Manner::Open,
};

// Nothing, what B does not have, and its newest commitment, by a broadcast and by a close, with the height after a reorganisation that forgets one transaction, or two. A close after the
// block does not stand in it.
const HEIGHTS: [(&str, u64); 7] = [
    ("[\"blocks\",1],[\"reorg\",1,1]", 1),
    (
        "[\"broadcast\",\"B\",0,2],[\"blocks\",1],[\"reorg\",1,1]",
        1,
    ),
    (
        "[\"broadcast\",\"B\",0,1],[\"blocks\",1],[\"reorg\",1,1]",
        2,
    ),
    (
        "[\"broadcast\",\"B\",0,1],[\"blocks\",1],[\"reorg\",1,2]",
        1,
    ),
    ("[\"close\",\"B\",0],[\"blocks\",1],[\"reorg\",1,1]", 2),
    ("[\"close\",\"B\",0],[\"blocks\",1],[\"reorg\",1,2]", 1),
    ("[\"blocks\",1],[\"close\",\"B\",0],[\"reorg\",1,1]", 1),
];

#[test]
fn broadcasts_what_a_side_has(rt: HostRuntime) {
    for (chain, height) in HEIGHTS {
        assert_eq!(rt; report_of(&rt, rt.alloc(), &RUN, chain).height, height);
    }
}
