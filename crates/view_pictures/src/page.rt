//! The fixed parts of the page around its scripts.

/// How the page begins, up to its style.
pub const HEAD: &str = r#"<!DOCTYPE html>
<html lang="en">
<head>
<meta charset="utf-8">
<meta name="viewport" content="width=device-width, initial-scale=1">
<meta http-equiv="Content-Security-Policy" content="default-src 'none'; style-src 'unsafe-inline'; script-src 'unsafe-inline'">
<title>Trace</title>
<style>
"#;

/// The style of the page, light and dark.
pub const STYLE: &str =
    r#":root { color-scheme: light dark; --ground: #ffffff; --card: #f6f8fa; --line: #8c959f; --text: #1f2328; --soft: #59636e;
  --new: #116329; --new-ground: #dafbe1; --gone: #a40e26; --gone-ground: #ffebe9; --focus: #0969da; --light: 32%; }
@media (prefers-color-scheme: dark) { :root:not([data-theme="light"]) { --ground: #0d1117; --card: #161b22; --line: #656c76;
  --text: #f0f6fc; --soft: #9198a1; --new: #56d364; --new-ground: #12261e; --gone: #ff7b72; --gone-ground: #301217;
  --focus: #58a6ff; --light: 72%; } }
:root[data-theme="dark"] { color-scheme: dark; --ground: #0d1117; --card: #161b22; --line: #656c76; --text: #f0f6fc;
  --soft: #9198a1; --new: #56d364; --new-ground: #12261e; --gone: #ff7b72; --gone-ground: #301217; --focus: #58a6ff;
  --light: 72%; }
:root[data-theme="light"] { color-scheme: light; }
* { box-sizing: border-box; }
body { margin: 0; background: var(--ground); color: var(--text); font: 15px/1.45 system-ui, sans-serif; }
header { position: sticky; top: 0; z-index: 1; padding: 10px 16px; background: var(--ground); border-bottom: 1px solid var(--line); }
h1 { display: inline; margin: 0 12px 0 0; font-size: 20px; }
h2 { margin: 0 0 4px; font-size: 17px; }
p { margin: 4px 0; }
button, select { padding: 4px 10px; border: 1px solid var(--line); border-radius: 6px; background: var(--card); color: var(--text);
  font: inherit; cursor: pointer; }
button:disabled { color: var(--soft); cursor: default; }
:focus-visible { outline: 3px solid var(--focus); outline-offset: 2px; }
.skip { position: absolute; left: -9999px; }
.skip:focus { left: 8px; top: 8px; z-index: 2; background: var(--ground); padding: 6px; }
.hidden { position: absolute; width: 1px; height: 1px; overflow: hidden; clip-path: inset(50%); white-space: nowrap; }
.bar { display: flex; flex-wrap: wrap; gap: 8px; align-items: center; margin-top: 6px; }
#where { font-weight: 600; }
#timeline { display: flex; flex-wrap: wrap; gap: 6px; margin: 8px 0 0; padding: 0; list-style: none; max-height: 84px; overflow: auto; }
#timeline button { min-width: 36px; }
#timeline button[aria-current] { background: var(--focus); color: var(--ground); border-color: var(--focus); font-weight: 700; }
#timeline .looped button { border-bottom: 4px double var(--focus); }
.columns { display: flex; flex-wrap: wrap; align-items: flex-start; gap: 16px; padding: 12px 16px; }
aside { flex: 0 1 240px; }
main { flex: 1 1 480px; min-width: 0; }
fieldset { margin: 0 0 12px; border: 1px solid var(--line); border-radius: 6px; }
fieldset label { display: block; }
fieldset button { padding: 1px 7px; font-size: 13px; }
#relations label { overflow-wrap: anywhere; }
.swatch { display: inline-block; width: 18px; border-top: 4px solid; vertical-align: middle; }
.row { display: flex; gap: 12px; overflow-x: auto; padding: 4px 4px 12px; }
.row .state { flex: 0 0 min(420px, 90%); content-visibility: auto; contain-intrinsic-size: 420px 500px; }
.state { padding: 10px 12px; border: 1px solid var(--line); border-radius: 8px; background: var(--card); }
.row .now { border-color: var(--focus); box-shadow: 0 0 0 2px var(--focus); }
.note { margin-left: 8px; font-size: 13px; font-weight: 400; color: var(--soft); }
figure { margin: 8px 0; }
svg { display: block; width: 100%; max-height: 60vh; background: var(--ground); border-radius: 6px; touch-action: none; }
.node rect { fill: var(--card); stroke: var(--text); }
.node text { fill: var(--text); text-anchor: middle; font: 13px system-ui, sans-serif; }
.node .word { font-size: 11px; fill: var(--soft); }
.node { cursor: grab; }
.edge path { fill: none; stroke-width: 1.5; }
.edge text { font: 12px system-ui, sans-serif; text-anchor: middle; stroke: var(--ground); stroke-width: 4px; paint-order: stroke; }
.new rect { stroke: var(--new); stroke-width: 3; }
.gone rect { stroke: var(--gone); stroke-dasharray: 5 4; }
.new path { stroke-width: 3.5; }
.gone path { stroke-dasharray: 6 5; }
.node .new, .edge.new text { fill: var(--new); font-weight: 700; }
.node .gone, .edge.gone text { fill: var(--gone); }
.node .gone { text-decoration: line-through; }
.tables { display: flex; flex-wrap: wrap; gap: 12px 20px; align-items: flex-start; }
table { border-collapse: collapse; font-size: 14px; }
caption { text-align: left; font-weight: 600; white-space: nowrap; }
td { padding: 1px 8px; border-top: 1px solid var(--line); white-space: nowrap; }
tr.new td { background: var(--new-ground); color: var(--new); font-weight: 600; }
tr.gone td { background: var(--gone-ground); color: var(--gone); text-decoration: line-through; }
td.mark { width: 1em; padding: 1px 4px; text-decoration: none !important; }
.empty td { color: var(--soft); }
.new-mark { color: var(--new); font-weight: 700; }
.gone-mark { color: var(--gone); text-decoration: line-through; }
@media print { header { position: static; } aside, .bar button { display: none; } .row { flex-wrap: wrap; } }
"#;

/// What stands on the page, up to the trace as JSON.
pub const BODY: &str = r#"</style>
</head>
<body>
<a class="skip" href='#states'>To the states</a>
<header>
<h1>Trace</h1><span id="summary"></span>
<nav class="bar" aria-label="Steps">
<button type="button" id="first">First</button>
<button type="button" id="back">&#8592; Back</button>
<button type="button" id="next">Next &#8594;</button>
<button type="button" id="last">Last state</button>
<output id="where" aria-live="polite"></output>
</nav>
<ol id="timeline" aria-label="States"></ol>
</header>
<div class="columns">
<aside aria-label="What is shown">
<fieldset><legend>States</legend>
<label><input type="radio" name="show" id="one" checked> one at a time</label>
<label><input type="radio" name="show" id="row"> side by side</label>
</fieldset>
<fieldset><legend>Each as</legend>
<label><input type="checkbox" id="graph" checked> graph</label>
<label><input type="checkbox" id="tables" checked> tables</label>
</fieldset>
<fieldset><legend>Relations</legend>
<p><button type="button" id="all">all</button> <button type="button" id="none">none</button>
<button type="button" id="changing">those that change</button></p>
<div id="relations"></div>
</fieldset>
<p><label>Colours <select id="theme"><option>system</option><option>light</option><option>dark</option></select></label></p>
<p><span class="new-mark">+ new</span> and <span class="gone-mark">gone</span> since the state before.</p>
<p class="note">Keys: left and right arrows step, Home is the first state, End the last one. Past the last state the trace goes on
where its loop begins. Atoms of the graph can be dragged.</p>
</aside>
<main id="states" tabindex="-1"><noscript>This page needs scripts to show the trace below.</noscript></main>
</div>
<script type="application/json" id="trace">
"#;
