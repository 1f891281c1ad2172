//! How a page looks.

/// The style of a page. The colours of sections are those of M. Okabe and K. Ito, which people tell apart who do not see
/// all colours.
pub(crate) const STYLE: &str = "\
:root{color-scheme:light dark;--ink:#1b1b1b;--paper:#fff;--faint:#d8d8d8;--quiet:#777}
@media (prefers-color-scheme:dark){:root{--ink:#e8e8e8;--paper:#161616;--faint:#3a3a3a;--quiet:#9a9a9a}}
body{font:14px/1.45 system-ui,sans-serif;margin:1.5em;color:var(--ink);background:var(--paper)}
h1{font-size:1.3em;margin:0 0 .3em}h2{font-size:1.05em;margin:1.4em 0 .4em}p{margin:.3em 0}
.wide{overflow-x:auto}
svg{display:block;overflow:visible;font:12px system-ui,sans-serif}
svg text{fill:var(--ink)}
.lane{fill:var(--faint);opacity:.45}
.tick{stroke:var(--faint);stroke-width:1}
svg text.far{fill:var(--quiet);text-anchor:middle}
.arrow{stroke:var(--ink);stroke-width:1;opacity:.55}
.head{fill:var(--ink)}
.committed{fill:#009e73;background:#009e73}
.released{fill:#56b4e9;background:#56b4e9}
.lost{fill:#d55e00;background:#d55e00}
.room{fill:#cc79a7;background:#cc79a7}
.lines{fill:#e69f00;background:#e69f00}
.long{fill:#b8a800;background:#b8a800}
.call{fill:#0072b2;background:#0072b2}
.mixed{fill:#7a52c7;background:#7a52c7}
.live{fill:#8a8a8a;background:#8a8a8a}
.waited{fill:#a07c50;background:#a07c50}
.served{fill:#6f8fae;background:#6f8fae}
.moved{fill:#a33b6b;background:#a33b6b}
.key span{display:inline-block;margin:0 1.1em .2em 0}
.key i{display:inline-block;width:.9em;height:.9em;margin-right:.4em;vertical-align:-.1em}
table{border-collapse:collapse;font-variant-numeric:tabular-nums}
th,td{padding:.15em .7em;text-align:left;border-bottom:1px solid var(--faint);white-space:nowrap}
.number{text-align:right}
";
