//! Scripts with as many events as a path holds, and with one more.

pub(crate) const ROWS: [&str; 13] = [
    "while (true) {} → |`4096: b0=1` | cut:events@0 → 5000",
    "for (let i = 0; i < 4095; i++) ; → |`4095: b0=1` b0=0 | done → 4096",
    "for (let i = 0; i < 4096; i++) ; → |`4096: b0=1` | cut:events@0 → 5000",
    "for (let i = 0; i < 4095; i++) ; 1 ? 2 : 3; → |`4095: b0=1` b0=0 | cut:events@35 → 5000",
    "for (let i = 0; i < 4095; i++) ; 0 || 1; → |`4095: b0=1` b0=0 | cut:events@35 → 5000",
    "for (let i = 0; i < 4095; i++) ; null ?? 1; → |`4095: b0=1` b0=0 | cut:events@38 → 5000",
    "for (let i = 0; i < 4095; i++) ; 1 && 2; → |`4095: b0=1` b0=0 | cut:events@35 → 5000",
    "for (let i = 0; i < 4095; i++) ; if (1) {} → |`4095: b0=1` b0=0 | cut:events@33 → 5000",
    "for (let i = 0; i < 4095; i++) ; while (0) ; → |`4095: b0=1` b0=0 | cut:events@33 → 5000",
    "for (let i = 0; i < 4095; i++) ; for (; 0; ) ; → |`4095: b0=1` b0=0 | cut:events@33 → 5000",
    "for (let i = 0; i < 4095; i++) ; do ; while (0); → |`4095: b0=1` b0=0 | cut:events@38 → 5000",
    "for (let i = 0; i < 4095; i++) ; try { if (1) {} } catch (e) { } finally { throw 1; } → |`4095: b0=1` b0=0 | cut:events@39 → 5000",
    "for (let i = 0; i < 4095; i++) ; if (x) {} → |`4095: b0=1` b0=0 | left:name@37+4095 → 5000",
];
