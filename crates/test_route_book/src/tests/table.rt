//! Inputs of whole lines, and the text with which a new store answers each.

/// The rooms of places, stops and marks, the last ticket that counts as given, the input, and its
/// text.
pub(super) type Row<'a> = ([usize; 3], u64, &'a str, &'a str);

/// What each rule of the line language shows at its lines. None of them removes anything.
pub(super) const ROWS: [Row<'static>; 25] = [
    // Places are made, listed by key and shown; a key that is there gets one more place.
    (
        [4, 4, 2],
        0,
        "place 50 oak\nplace 30 elm\nplace 70 ash\nall\nplace 50 fir\nshow 1\n",
        "1\n2\n3\n2 30 elm\n1 50 oak\n3 70 ash\nend\n4\n50 oak\n",
    ),
    // A stop goes directly behind another. A walk goes to the end and then back, or once round a
    // ring.
    (
        [4, 4, 2],
        0,
        "place 1 a\nstart 1\nextend 2 1\nextend 3 1\nwalk 3\njoin 4 2\nwalk 3\n",
        "1\n2\n3\n4\n3 1\n4 1\n2 1\nend\nok\n3 1\n4 1\n2 1\nend\n",
    ),
    // A swap with the next stop leaves that one in a ring of its own; with itself it changes
    // nothing.
    (
        [4, 4, 2],
        0,
        "place 1 a\nstart 1\nextend 2 1\nextend 3 1\njoin 4 2\nswap 2 3\nwalk 3\nwalk 2\nswap 2 2\n",
        "1\n2\n3\n4\nok\nok\n3 1\nend\n2 1\n4 1\nend\nok\n",
    ),
    // The last place whose key is not above the one that is asked for, and the place next to it.
    (
        [4, 4, 2],
        0,
        "floor 4\nplace 3 x\nfloor 4\nfloor 2\nafter 1\n",
        "none\n1\n1\nnone\nnone\n",
    ),
    // The last ticket is given once.
    (
        [4, 4, 2],
        18446744073709551614,
        "place 1 a\nplace 2 b\nplace 1 c\nshow 5\nshow 0\n",
        "18446744073709551615\nfull\nfull\ngone\nunknown\n",
    ),
    // A hint changes no reply, and has to name a place.
    (
        [4, 4, 2],
        0,
        "place 9 a\nplace 4 b near 1\nplace 4 c near 2\nfind 4\nbefore 1\nfind 5\n",
        "1\n2\n3\n2\n3\nnone\n",
    ),
    // Places of one key stand in the order of their tickets, and a word is replaced by ticket.
    (
        [4, 4, 2],
        0,
        "place 5 a\nplace 5 b\nplace 5 c\nfind 5\nfloor 5\nfloor 9\nafter 1\nbefore 3\nword 3 zed\nword 3 q\nword 9 q\nall\n",
        "1\n2\n3\n1\n3\n3\n2\n2\nold c\nold zed\nunknown\n1 5 a\n2 5 b\n3 5 q\nend\n",
    ),
    // The longest line that is a command, and one of a byte more.
    (
        [4, 4, 2],
        0,
        "place 18446744073709551615 abcdefghijklmnop near 18446744073709551615\nplace 18446744073709551615 abcdefghijklmnopq near 18446744073709551615\n",
        "unknown\nbad\n",
    ),
    // A store without room.
    ([0, 0, 0], 0, "place 1 a\n", "full\n"),
    // The first ticket is looked at before the second, and a kind before the room.
    (
        [4, 4, 2],
        0,
        "place 1 a\nstart 1\nmark 1 2\nshow 3\nshow 2\nshow 9\ncut 1\nextend 7 1\nextend 1 7\nextend 2 7\nmark 2 2\nmark 1 1\nwalk 3\nafter 2\nfoo\n",
        "1\n2\n3\n1 2\nat 1\nunknown\nkind\nunknown\nkind\nunknown\nkind\nkind\nkind\nkind\nbad\n",
    ),
    // Stops are joined only at an end and a start, and parted or swapped only if another follows.
    (
        [4, 4, 2],
        0,
        "place 1 a\nstart 1\nextend 2 1\nstart 1\njoin 2 4\njoin 3 3\njoin 3 4\ncut 4\nswap 3 4\nswap 2 3\nwalk 2\ncut 3\ncut 3\nwalk 2\njoin 4 4\nwalk 4\ncut 4\njoin 4 4\n",
        "1\n2\n3\n4\nno\nno\nok\nno\nno\nok\n2 1\n4 1\nend\nok\nno\n2 1\n4 1\nend\nno\n4 1\n2 1\nend\nno\nno\n",
    ),
    // A ring is cut if it is asked, and two rings are swapped into one.
    (
        [4, 4, 2],
        0,
        "place 1 a\nstart 1\njoin 2 2\nstart 1\njoin 3 3\nswap 2 3\nwalk 3\nswap 3 2\nwalk 3\ncut 2\nwalk 2\n",
        "1\n2\nok\n3\nok\nok\n3 1\n2 1\nend\nok\n3 1\nend\nok\n2 1\nend\n",
    ),
    // Full rooms of stops and of marks, after every other refusal.
    (
        [1, 1, 1],
        0,
        "place 1 a\nstart 1\nstart 1\nstart 2\nmark 1 2\nmark 1 2\nmark 2 1\nextend 2 1\nextend 9 1\n",
        "1\n2\nfull\nkind\n3\nfull\nkind\nfull\nunknown\n",
    ),
    // An empty line.
    ([4, 4, 2], 0, "\n", "bad\n"),
    // A leading zero.
    ([4, 4, 2], 0, "place 01 a\n", "bad\n"),
    // An upper-case letter.
    ([4, 4, 2], 0, "place 1 A\n", "bad\n"),
    // Two spaces.
    ([4, 4, 2], 0, "place 1  a\n", "bad\n"),
    // Seventeen letters.
    ([4, 4, 2], 0, "place 1 abcdefghijklmnopq\n", "bad\n"),
    // A number of more than 64 bits.
    ([4, 4, 2], 0, "show 18446744073709551616\n", "bad\n"),
    // A carriage return.
    ([4, 4, 2], 0, "all\r\n", "bad\n"),
    // A space at the end.
    ([4, 4, 2], 0, "pack \n", "bad\n"),
    // Another word than `near`.
    ([4, 4, 2], 0, "place 1 a far 1\n", "bad\n"),
    // No ticket behind `near`.
    ([4, 4, 2], 0, "place 1 a near\n", "bad\n"),
    // A ticket is missing.
    ([4, 4, 2], 0, "mark 1\n", "bad\n"),
    // A ticket too many.
    ([4, 4, 2], 0, "swap 1 2 3\n", "bad\n"),
];
