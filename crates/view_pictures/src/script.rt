//! The script of the page: positions, changes, tables, and what is shown.

/// The first part of the script, behind the trace.
pub const SCRIPT: &str = r#"</script>
<script>
"use strict";
const trace = JSON.parse(document.getElementById("trace").textContent);
const count = trace.states.length;
const view = { at: 0, row: false, graph: true, tables: true, hidden: new Set(), theme: "system" };
const byId = (id) => document.getElementById(id);

/* An element with attributes and children; a text is a child too. */
function make(tag, attributes, ...children) {
  const it = document.createElement(tag);
  for (const [name, value] of Object.entries(attributes || {})) it.setAttribute(name, value);
  it.append(...children);
  return it;
}

/* The state at a position of the infinite sequence. */
function stateAt(position) {
  return position < count ? position : trace.loop + (position - trace.loop) % (count - trace.loop);
}

/* The state before a position, or none at its beginning. */
function stateBefore(position) {
  return position > 0 ? stateAt(position - 1) : null;
}

const sets = trace.states.map(() => new Map());

/* The tuples of a relation in a state, as a set of texts. */
function setOf(state, label) {
  if (!sets[state].has(label)) sets[state].set(label, new Set(trace.states[state][label].map((it) => it.join("->"))));
  return sets[state].get(label);
}

/* The tuples of a relation that a state shows, each with "", "new" or "gone". */
function shown(state, before, label) {
  const now = trace.states[state][label];
  if (before === null) return now.map((tuple) => ({ tuple, change: "" }));
  const here = setOf(state, label), there = setOf(before, label);
  const all = now.map((tuple) => ({ tuple, change: there.has(tuple.join("->")) ? "" : "new" }));
  const lost = trace.states[before][label].filter((tuple) => !here.has(tuple.join("->")));
  return all.concat(lost.map((tuple) => ({ tuple, change: "gone" })));
}

const visible = () => trace.relations.filter((it) => !view.hidden.has(it.label));

/* What has changed, in words. */
function changesOf(state, before) {
  if (before === null) return "The first state.";
  const parts = [];
  for (const { label } of trace.relations) {
    const all = shown(state, before, label);
    const added = all.filter((it) => it.change === "new").length, lost = all.filter((it) => it.change === "gone").length;
    if (added + lost) parts.push(label + (added ? " +" + added : "") + (lost ? " \u2212" + lost : ""));
  }
  return parts.length ? "Changes: " + parts.join(", ") : "As state " + before + ".";
}

/* A relation in a state as a table. */
function tableOf(relation, state, before) {
  const all = shown(state, before, relation.label);
  const body = make("tbody");
  for (const { tuple, change } of all) {
    const row = make("tr", change ? { class: change } : {});
    const mark = make("td", { class: "mark" });
    if (change) mark.append(make("span", { "aria-hidden": "true" }, change === "new" ? "+" : "\u2212"), make("span", { class: "hidden" }, change));
    row.append(mark, ...tuple.map((atom) => make("td", {}, atom)));
    body.append(row);
  }
  if (!all.length) body.append(make("tr", { class: "empty" }, make("td", { class: "mark" }), make("td", {}, "none")));
  const table = make("table", {}, make("caption", {}, relation.label), body);
  table.dataset.relation = relation.label;
  return table;
}

/* A state as a card. */
function cardOf(state, before, isNow) {
  const title = "State " + state;
  const heading = make("h2", {}, title);
  if (state === trace.loop) heading.append(make("span", { class: "note" }, "the loop begins here"));
  if (state === count - 1) heading.append(make("span", { class: "note" }, "then state " + trace.loop + " again"));
  const card = make("section", { class: isNow ? "state now" : "state", "aria-label": title }, heading);
  card.dataset.state = state;
  card.append(make("p", { class: "changes" }, changesOf(state, before)));
  if (view.graph) card.append(graphOf(state, before));
  if (view.tables) {
    const tables = make("div", { class: "tables" });
    for (const relation of visible()) tables.append(tableOf(relation, state, before));
    card.append(tables);
  }
  return card;
}

/* Where the sequence stands, in words. */
function whereText() {
  const state = stateAt(view.at);
  const round = view.at < count ? 0 : 1 + Math.floor((view.at - count) / (count - trace.loop));
  return "Position " + view.at + ": state " + state + (round ? ", round " + (round + 1) + " of the loop" : "");
}

function drawStates() {
  const main = byId("states");
  const now = stateAt(view.at);
  if (view.row) {
    const row = make("div", { class: "row" });
    for (let state = 0; state < count; state++) row.append(cardOf(state, state === now ? stateBefore(view.at) : stateBefore(state), state === now));
    main.replaceChildren(row);
    row.children[now].scrollIntoView({ block: "nearest", inline: "nearest" });
  } else {
    main.replaceChildren(cardOf(now, stateBefore(view.at), true));
  }
}

function drawControls() {
  const now = stateAt(view.at);
  byId("where").replaceChildren(whereText(), make("span", { class: "hidden" }, ". " + changesOf(now, stateBefore(view.at))));
  byId("back").disabled = byId("first").disabled = view.at === 0;
  for (const button of byId("timeline").querySelectorAll("button")) {
    if (Number(button.dataset.state) === now) button.setAttribute("aria-current", "step");
    else button.removeAttribute("aria-current");
  }
  for (const box of byId("relations").querySelectorAll("input")) box.checked = !view.hidden.has(box.value);
  byId("row").checked = view.row;
  byId("one").checked = !view.row;
  byId("graph").checked = view.graph;
  byId("tables").checked = view.tables;
  byId("theme").value = view.theme;
  if (view.theme === "system") delete document.documentElement.dataset.theme;
  else document.documentElement.dataset.theme = view.theme;
}

/* The address remembers what is shown. */
function remember() {
  const words = new URLSearchParams();
  if (view.at) words.set("at", view.at);
  if (view.row) words.set("show", "row");
  if (!view.graph) words.set("graph", "no");
  if (!view.tables) words.set("tables", "no");
  if (view.theme !== "system") words.set("theme", view.theme);
  for (const label of view.hidden) words.append("hide", label);
  try { history.replaceState(null, "", '#' + words); } catch { /* an address that can't be changed stays */ }
}

function recall() {
  const words = new URLSearchParams(location.hash.slice(1));
  const at = Number(words.get("at"));
  view.at = Number.isSafeInteger(at) && at > 0 ? at : 0;
  view.row = words.get("show") === "row";
  view.graph = words.get("graph") !== "no";
  view.tables = words.get("tables") !== "no";
  view.theme = ["light", "dark"].includes(words.get("theme")) ? words.get("theme") : "system";
  view.hidden = new Set(words.getAll("hide"));
}

function draw() {
  drawControls();
  drawStates();
  remember();
}

function goTo(position) {
  view.at = Math.max(0, position);
  draw();
}

function hide(isHidden) {
  view.hidden = new Set(trace.relations.filter(isHidden).map((it) => it.label));
  forgetPlaces();
  draw();
}

/* The lists of states and of relations, which stay. */
function build() {
  byId("summary").textContent = count + (count === 1 ? " state" : " states") + "; after state " + (count - 1) + " comes state " + trace.loop + " again.";
  for (let state = 0; state < count; state++) {
    const button = make("button", { type: "button", "aria-label": "State " + state }, String(state));
    button.dataset.state = state;
    button.addEventListener("click", () => goTo(state));
    byId("timeline").append(make("li", state >= trace.loop ? { class: "looped" } : {}, button));
  }
  trace.relations.forEach((relation, place) => {
    const box = make("input", { type: "checkbox", value: relation.label });
    box.addEventListener("change", () => {
      if (box.checked) view.hidden.delete(relation.label);
      else view.hidden.add(relation.label);
      forgetPlaces();
      draw();
    });
    const swatch = make("span", { class: "swatch", "aria-hidden": "true" });
    swatch.style.color = colourOf(place);
    byId("relations").append(make("label", {}, box, " ", relation.label, " ", ...(relation.columns === 1 ? [] : [swatch])));
  });
}

function listen() {
  byId("first").addEventListener("click", () => goTo(0));
  byId("back").addEventListener("click", () => goTo(view.at - 1));
  byId("next").addEventListener("click", () => goTo(view.at + 1));
  byId("last").addEventListener("click", () => goTo(count - 1));
  byId("one").addEventListener("change", () => { view.row = false; draw(); });
  byId("row").addEventListener("change", () => { view.row = true; draw(); });
  byId("graph").addEventListener("change", (event) => { view.graph = event.target.checked; draw(); });
  byId("tables").addEventListener("change", (event) => { view.tables = event.target.checked; draw(); });
  byId("theme").addEventListener("change", (event) => { view.theme = event.target.value; draw(); });
  byId("all").addEventListener("click", () => hide(() => false));
  byId("none").addEventListener("click", () => hide(() => true));
  byId("changing").addEventListener("click", () => hide((it) => !it.changes));
  addEventListener("hashchange", () => { recall(); forgetPlaces(); draw(); });
  addEventListener("keydown", (event) => {
    if (event.altKey || event.ctrlKey || event.metaKey || /^(INPUT|SELECT)$/.test(event.target.tagName)) return;
    const to = { ArrowRight: view.at + 1, ArrowLeft: view.at - 1, Home: 0, End: count - 1 }[event.key];
    if (to === undefined) return;
    event.preventDefault();
    goTo(to);
  });
}
"#;
