//! Texts, arrays, objects and heaps of the largest sizes, and larger ones.

pub(crate) const ROWS: [&str; 15] = [
    "let s = 'a'; for (let i = 0; i < 16; i++) s += s; if (s.length === 65536) {} s + ''; s + 'a'; → |`16: b13=1` b13=0 b50=1 | left:size@87+16 → 100",
    "let s = 'a'; for (let i = 0; i < 17; i++) s += s; → |`17: b13=1` | left:size@44+17 → 100",
    "let s = '`65535:a`'; s + 1; s + 12; → | | left:size@65556 → 1",
    "'`65537:a`'; → | | left:size@0 → 1",
    "if ('`65536:a`'.length === 65536) {} → | b0=1 | done → 1",
    "if ([`65536:0,`].length === 65536) {} → | b0=1 | done → 1",
    "[`65537:0,`]; → | | left:size@0 → 1",
    "[`65536:0,`x]; → | | left:name@131073 → 1",
    "({`65536:k#: 0,`}); → | | done → 1",
    "({`65537:k#: 0,`}); → | | left:size@1 → 1",
    "let o = {`65536:k#: #,`}; o.k5 += 1; if (o.k5 === 6) {} o.x = 1; → | b895307=1 | left:size@895327 → 1",
    "for (;;) [{}, {}]; → | | left:size@10+333334 → 1000000",
    "let o = {}; for (;;) try { [null.x]; } catch { } → | | left:size@32+500000 → 1000000",
    "for (;;) { let a, b, c; } → | | left:size@18+333334 → 1000000",
    "function f(a, b) {} for (;;) f(); → | | left:size@14+1000000 → 1000000",
];
