//! Sheets that are declined in their contents lines, or right after them.
use crate::desk::Refused;
use crate::tables::{Case, Table};

/// Contents lines, and bytes after them.
pub static CONTENTS: [Table; 1] = [Table {
    head: b"",
    cases: &[
        Case {
            answer: Ok(()),
            tails: &[b"NODES;1\nLINKS;0\nFAULTS;0\nTURNS;0\n"],
        },
        Case {
            answer: Err(Refused { number: 1, line: 1 }),
            tails: &[
                b"",
                b"\n",
                b"NODES;1",
                b"NODES;0",
                b"NODES\n",
                b"NODES1\n",
                b"NODES;\n",
                b";1\n",
                b"1\n",
                b"NODES;00\n",
                b"NODES;05\n",
                b"NODES;000001\n",
                b"NODES;100000\n",
                b"NODES; 1\n",
                b"NODES;1 \n",
                b" NODES;1\n",
                b"NODES ;1\n",
                b"NODES;1\r\n",
                b"NODES;1;\n",
                b"NODES;1;1\n",
                b"NODES;-1\n",
                b"NODES;+1\n",
                b"NODES;/\n",
                b"NODES;:\n",
                b"NODES;1a\n",
                b"nodes;1\n",
                b"NODE;1\n",
                b"NODESS;1\n",
                b"NODES,1\n",
                b"LINKS;0\n",
                b"TURNS;0\n",
                b"LINKS;1025\n",
            ],
        },
        Case {
            answer: Err(Refused { number: 2, line: 1 }),
            tails: &[
                b"NODES;0\n",
                b"NODES;257\n",
                b"NODES;99999\n",
                b"NODES;0\nLINKS\n",
            ],
        },
        Case {
            answer: Err(Refused { number: 1, line: 2 }),
            tails: &[
                b"NODES;1\n",
                b"NODES;256\n",
                b"NODES;1\nLINKS;0",
                b"NODES;1\nNODES;1\n",
                b"NODES;1\nFAULTS;4097\n",
                b"NODES;1\n\nLINKS;0\n",
                b"NODES;1\nLINKS;00\n",
                b"NODES;1\nLINKS;\n",
                b"NODES;1\nLINKS;0\r\n",
            ],
        },
        Case {
            answer: Err(Refused { number: 2, line: 2 }),
            tails: &[
                b"NODES;1\nLINKS;1025\n",
                b"NODES;1\nLINKS;99999\nFAULTS;4097\nTURNS;1025\n",
            ],
        },
        Case {
            answer: Err(Refused { number: 1, line: 3 }),
            tails: &[
                b"NODES;1\nLINKS;1024\n",
                b"NODES;1\nLINKS;0\nFAULTS;0",
                b"NODES;1\nLINKS;0\nTURNS;0\n",
                b"NODES;1\nLINKS;0\nLINKS;0\n",
                b"NODES;1\nLINKS;0\nFAULTS;05\n",
            ],
        },
        Case {
            answer: Err(Refused { number: 2, line: 3 }),
            tails: &[b"NODES;1\nLINKS;0\nFAULTS;4097\n"],
        },
        Case {
            answer: Err(Refused { number: 1, line: 4 }),
            tails: &[
                b"NODES;1\nLINKS;0\nFAULTS;4096\n",
                b"NODES;1\nLINKS;0\nFAULTS;0\nTURNS;0",
                b"NODES;1\nLINKS;0\nFAULTS;0\nFAULTS;0\n",
                b"NODES;1\nLINKS;0\nFAULTS;0\nTURNS;000000\n",
            ],
        },
        Case {
            answer: Err(Refused { number: 2, line: 4 }),
            tails: &[
                b"NODES;1\nLINKS;0\nFAULTS;0\nTURNS;1025\n",
                b"NODES;2\nLINKS;0\nFAULTS;0\nTURNS;1025\n",
            ],
        },
        Case {
            answer: Err(Refused { number: 6, line: 4 }),
            tails: &[
                b"NODES;2\nLINKS;0\nFAULTS;0\nTURNS;0\n",
                b"NODES;256\nLINKS;0\nFAULTS;0\nTURNS;0\n",
                b"NODES;2\nLINKS;0\nFAULTS;1\nTURNS;0\n",
                b"NODES;2\nLINKS;0\nFAULTS;0\nTURNS;0\nx",
            ],
        },
        Case {
            answer: Err(Refused { number: 1, line: 5 }),
            tails: &[
                b"NODES;1\nLINKS;0\nFAULTS;0\nTURNS;0\n\n",
                b"NODES;1\nLINKS;0\nFAULTS;0\nTURNS;0\n0",
                b"NODES;1\nLINKS;0\nFAULTS;0\nTURNS;0\n ",
                b"NODES;1\nLINKS;0\nFAULTS;0\nTURNS;0\n\r\n",
                b"NODES;1\nLINKS;0\nFAULTS;0\nTURNS;0\nTURNS;0\n",
                b"NODES;1\nLINKS;1024\nFAULTS;0\nTURNS;0\n",
                b"NODES;1\nLINKS;0\nFAULTS;4096\nTURNS;0\n",
                b"NODES;1\nLINKS;0\nFAULTS;0\nTURNS;1024\n",
            ],
        },
    ],
}];
