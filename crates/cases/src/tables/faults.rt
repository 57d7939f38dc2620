//! Sheets with fault lines.
use crate::desk::Refused;
use crate::tables::{Case, Table};

/// Fault lines: a site of one node has five registers, one of three nodes and two links nineteen.
pub static FAULTS: [Table; 2] = [
    Table {
        head: b"NODES;1\nLINKS;0\nFAULTS;3\nTURNS;0\n",
        cases: &[
            Case {
                answer: Ok(()),
                tails: &[b"0;0\n4;65535\n0;0\n", b"4;0\n4;0\n4;0\n"],
            },
            Case {
                answer: Err(Refused { number: 1, line: 5 }),
                tails: &[
                    b"",
                    b"0;0",
                    b"5;65536",
                    b"\n",
                    b"0\n",
                    b"0;\n",
                    b";0\n",
                    b"00;0\n",
                    b"05;0\n",
                    b"0;00\n",
                    b"0;05\n",
                    b"0;000000\n",
                    b"0;100000\n",
                    b"100000;0\n",
                    b"0; 0\n",
                    b"0;0\r\n",
                    b"0;0;0\n",
                    b"0;-1\n",
                ],
            },
            Case {
                answer: Err(Refused { number: 2, line: 5 }),
                tails: &[b"0;65536\n", b"4;99999\n", b"5;65536\n", b"99999;99999\n"],
            },
            Case {
                answer: Err(Refused { number: 7, line: 5 }),
                tails: &[b"5;0\n", b"5;65535\n", b"99999;0\n"],
            },
            Case {
                answer: Err(Refused { number: 1, line: 6 }),
                tails: &[b"0;0\n", b"0;0\n1;1", b"0;0\n1\n"],
            },
            Case {
                answer: Err(Refused { number: 2, line: 6 }),
                tails: &[b"0;0\n0;65536\n0;0\n"],
            },
            Case {
                answer: Err(Refused { number: 7, line: 6 }),
                tails: &[b"4;0\n5;0\n0;0\n"],
            },
            Case {
                answer: Err(Refused { number: 1, line: 7 }),
                tails: &[b"0;0\n1;1\n", b"0;0\n1;1\n2;2"],
            },
            Case {
                answer: Err(Refused { number: 2, line: 7 }),
                tails: &[b"0;0\n1;1\n2;65536\n"],
            },
            Case {
                answer: Err(Refused { number: 7, line: 7 }),
                tails: &[b"0;0\n1;1\n5;2\n"],
            },
            Case {
                answer: Err(Refused { number: 1, line: 8 }),
                tails: &[b"0;0\n1;1\n2;2\n3;3\n"],
            },
        ],
    },
    Table {
        head: b"NODES;3\nLINKS;2\nFAULTS;1\nTURNS;0\n0;1\n1;2\n",
        cases: &[
            Case {
                answer: Ok(()),
                tails: &[b"18;65535\n"],
            },
            Case {
                answer: Err(Refused { number: 7, line: 7 }),
                tails: &[b"19;0\n"],
            },
        ],
    },
];
