//! A page fails where a piece has no place, or a place no piece.

use page::{Page, Piece};

// The greatest sum of two numbers.
const SUM: Piece = Piece::Sum(36_893_488_147_419_103_230);

// A template, the pieces that are put into it, and what the page then has.
const ROWS: [(&str, &[Piece], Option<&str>); 7] = [
    ("", &[], Some("")),
    ("a%b", &[Piece::Count(7)], Some("a7b")),
    (
        "a%b%",
        &[Piece::Count(7), SUM],
        Some("a7b36893488147419103230"),
    ),
    ("%", &[], None),
    ("a%b%", &[Piece::Count(7)], None),
    ("a%b", &[Piece::Count(7), SUM], None),
    ("", &[SUM], None),
];

#[test]
fn pieces_and_places(rt: HostRuntime) {
    for (template, pieces, wanted) in &ROWS {
        let mut page = Page::new(rt.alloc());
        page.write(template, pieces);
        assert!(rt; page.whole() == *wanted, "{template}");
    }
}
