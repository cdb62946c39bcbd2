//! Scripts that are long or deep, and calls and objects that are.

pub(crate) const ROWS: [&str; 11] = [
    "`200:{``200:}` → | | done → 1",
    "`198:{`x`198:}` → | | left:name@198 → 1",
    "`300:(` → refused → 1",
    "let x = 0;`30000: x++;` if (x === 30000) {} → | b150011=1 | done → 1",
    "`20000:let v# = #; `if (v0 + v19999 === 19999) {} → | b377780=1 | done → 1",
    "if (0`20000: + 1` === 20000) {} → | b0=1 | done → 1",
    "let s = ''`3000: + 'ab'`; if (s.length === 6000) {} → | b21012=1 | done → 1",
    "function f() { f(); } f(); → | | cut:turns@16 → 5000",
    "let c = []; const t = [0, 1, 2, 3, 4, 5, 6, 7, 8, 9]; for (const a of t) for (const b of t) for (const d of t) for (const e of [1, 2, 3, 4, 5]) c = [c]; function f(a) { for (const b of a) return f(b) + 1; return 0; } if (f(c) === 5000) {} x; → | b217=1 | left:name@239+16111+5001 → 1000000",
    "let c = null, n = 0; const t = [0, 1, 2, 3, 4, 5, 6, 7, 8, 9]; for (const a of t) for (const b of t) for (const d of t) for (const e of [1, 2, 3, 4, 5]) c = {p: c}; function f(o) { n++; f(o.p); } try { f(c); } catch (e) { } if (n === 5001) {} x; → | b224=1 | left:name@243+11111+5001 → 1000000",
    "let c = null, n = 0; const t = [0, 1, 2, 3, 4, 5, 6, 7, 8, 9]; for (const a of t) for (const b of t) for (const d of t) for (const e of [1, 2, 3, 4, 5]) c = {p: c}; function f(o) { try { f(o.p); } finally { n++; } } try { f(c); } catch (e) { } if (n === 5001) {} x; → | b244=1 | left:name@263+11111+5001 → 1000000",
];
