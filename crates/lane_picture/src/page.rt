// How a page of lanes begins.

use picture_page::{Attribute, Name, Page, Tag};

// The style of a page, in a light and in a dark scheme. (It has no octet that a page escapes.)
const STYLE: &[u8] = b"
:root { color-scheme: light dark; --ink: #1c2128; --paper: #ffffff; --ground: #f3f5f8; --edge: #c5ccd6;
  --dim: #5b6472; --good: #bfe8c8; --warn: #ffd9a0; --bad: #ffbfbb; --info: #c9dcff; --calm: #e3e7ee;
  --sent: #d9ccff; --strong: #b3261e; }
@media (prefers-color-scheme: dark) { :root { --ink: #e6e9ef; --paper: #14171c; --ground: #1d2128;
  --edge: #3c4450; --dim: #a2abba; --good: #1f5a33; --warn: #6f4a11; --bad: #7a2623; --info: #23427a;
  --calm: #343b47; --sent: #493a80; --strong: #ff8f87; } }
body { margin: 1.5rem; background: var(--paper); color: var(--ink); font: 14px/1.45 sans-serif; }
h1 { font-size: 1.3rem; margin: 0 0 .3rem; }
h2 { font-size: 1.1rem; margin: 1.6rem 0 .4rem; }
p { margin: .2rem 0 .8rem; color: var(--dim); }
.pass { display: flex; border: 1px solid var(--edge); }
.names { flex: none; border-right: 1px solid var(--edge); }
.scroll { overflow-x: auto; flex: auto; }
svg { display: block; }
svg text { font: 9.5px sans-serif; fill: var(--ink); pointer-events: none; }
.names text { font-size: 12px; }
rect { rx: 3px; fill: none; }
rect.ground { rx: 0; fill: var(--ground); }
.number rect { fill: none; }
.number text { fill: var(--dim); }
.day rect { fill: var(--calm); }
.clock text, .time text { writing-mode: vertical-rl; font-size: 11px; }
.clock rect { fill: var(--info); }
.good rect { fill: var(--good); }
.erred rect { fill: var(--bad); stroke: var(--strong); }
.unknown rect { fill: var(--warn); }
.gap rect { stroke: var(--strong); stroke-dasharray: 3 2; }
.gap text { fill: var(--strong); font-weight: bold; }
.refused rect { stroke: var(--strong); stroke-dasharray: 3 2; fill: var(--paper); }
.refused text { fill: var(--strong); }
.seal rect { fill: var(--info); stroke: var(--ink); }
.locked rect { fill: var(--good); }
.unlocked rect { fill: var(--bad); }
.state rect { fill: var(--good); }
.halted rect { fill: var(--warn); }
.asked rect { fill: var(--info); }
.steered rect { fill: var(--calm); }
.offered rect { fill: var(--sent); }
.late rect { fill: var(--warn); stroke: var(--strong); }
.ended rect { fill: var(--calm); stroke: var(--ink); }
.waiting rect { fill: var(--warn); }
.window rect { stroke: var(--dim); stroke-dasharray: 2 2; }
.window text { fill: var(--dim); }
.sent rect { fill: var(--good); stroke: var(--ink); }
.ordered rect { fill: var(--calm); stroke: var(--strong); stroke-dasharray: 3 2; }
.failed rect { fill: var(--bad); stroke: var(--strong); }
table.lines { border-collapse: collapse; width: 100%; font: 12px/1.4 monospace; }
.lines th { text-align: left; font-family: sans-serif; position: sticky; top: 0; background: var(--paper); }
.lines th, .lines td { padding: .25rem .5rem; border-bottom: 1px solid var(--edge); vertical-align: top; }
.lines td { white-space: pre-wrap; overflow-wrap: anywhere; }
.lines td.n { color: var(--dim); text-align: right; }
.lines td.l { width: 34%; }
.lines td.s { width: 24%; }
tr.head td, tr.unrun td { color: var(--dim); }
tr.refused td, tr.full td { background: var(--ground); color: var(--strong); }
tr:target td { background: var(--info); }
";

/// Begins a page in English with this title, with the style of lanes and of tables, up to its body.
pub fn begin_page(title: &[u8], page: &mut Page) {
    page.begin(Tag::Html, &[Attribute::octets(Name::Lang, b"en")]);
    page.begin(Tag::Head, &[]);
    page.element(Tag::Title, &[], title);
    page.element(Tag::Style, &[], STYLE);
    page.end();
    page.begin(Tag::Body, &[]);
}
