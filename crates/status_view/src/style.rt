// The style of the page for people.

/// The style, in a dark and in a light scheme. It has no octet that a page escapes.
pub const STYLE: &str = "
:root { color-scheme: dark light; --ground: #0d1117; --card: #161c24; --edge: #2a333f; --ink: #e8edf3;
  --dim: #93a1b1; --good: #3fb96b; --goodground: #10291b; --bad: #ff6b62; --badground: #3a1513; }
@media (prefers-color-scheme: light) { :root { --ground: #f4f6f9; --card: #ffffff; --edge: #d5dce5;
  --ink: #18202a; --dim: #5a6878; --good: #157a3c; --goodground: #dff5e6; --bad: #b3261e;
  --badground: #fde4e1; } }
* { box-sizing: border-box; }
body { margin: 0 auto; max-width: 90rem; padding: 1rem; background: var(--ground); color: var(--ink);
  font: 16px/1.4 system-ui, sans-serif; font-variant-numeric: tabular-nums; }
.top { display: flex; flex-wrap: wrap; gap: .2rem 1.2rem; align-items: baseline; color: var(--dim); }
h1 { margin: 0; font-size: 1.05rem; color: var(--ink); }
.time { margin-left: auto; font-size: 1.05rem; color: var(--ink); }
.verdict { margin: .8rem 0; padding: .9rem 1.2rem; border-radius: .7rem; border-left: .6rem solid; }
.verdict p { margin: .1rem 0; font-size: 1.1rem; color: var(--ink); }
.word { font-size: 2rem; font-weight: 700; line-height: 1.15; }
.well { background: var(--goodground); border-color: var(--good); }
.well .word { color: var(--good); }
.ill { background: var(--badground); border-color: var(--bad); }
.ill .word { color: var(--bad); }
.cards { display: grid; grid-template-columns: repeat(auto-fit, minmax(15rem, 1fr)); gap: .8rem; }
.card, .users { padding: .8rem 1rem; border: 1px solid var(--edge); border-radius: .7rem;
  background: var(--card); }
.users { margin: .8rem 0; overflow-x: auto; }
h2 { margin: 0; font-size: .8rem; font-weight: 600; letter-spacing: .06em; text-transform: uppercase;
  color: var(--dim); }
.big { margin: .1rem 0 0; font-size: 1.9rem; font-weight: 650; line-height: 1.2; }
.unit { margin: 0 0 .4rem; color: var(--dim); }
.fact { display: flex; justify-content: space-between; gap: 1rem; padding: .12rem 0; font-size: .95rem; }
.fact .name { color: var(--dim); }
.fact .value { text-align: right; overflow-wrap: anywhere; }
.fact .bad { color: var(--bad); font-weight: 650; }
table { border-collapse: collapse; width: 100%; font-size: .95rem; }
th { padding: .35rem .6rem .35rem 0; text-align: left; font-size: .8rem; font-weight: 600;
  color: var(--dim); border-bottom: 1px solid var(--edge); white-space: nowrap; }
td { padding: .45rem .6rem .45rem 0; border-bottom: 1px solid var(--edge); white-space: nowrap;
  vertical-align: top; }
tr:last-child td { border-bottom: 0; }
.free td { color: var(--dim); }
.spent td, .failed td { color: var(--bad); }
.end { font-size: .85rem; color: var(--dim); }
.links a { margin-right: 1rem; color: var(--dim); }
";
