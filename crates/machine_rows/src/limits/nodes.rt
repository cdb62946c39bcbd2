//! Scripts of 50,000,000 nodes, and of one more.

pub(crate) const ROWS: [&str; 2] = [
    "for (let i = 0; i < 4000; i++) 0`6246:+0`; 0`1996:+0`;; → |`4000: b0=1` b0=0 | done → 4000",
    "for (let i = 0; i < 4000; i++) 0`6246:+0`; 0`1996:+0`;;; → |`4000: b0=1` b0=0 | cut:nodes@16521 → 4000",
];
