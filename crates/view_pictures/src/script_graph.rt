//! The script of the page: the graph of a state.

/// The second part of the script, and the end of the page.
pub const SCRIPT_GRAPH: &str = r#"
/* The graph: atoms have one place in all states, so that stepping shows what changes. */
const MOST_ATOMS = 150;
let places = null;

/* The colour of a relation. */
function colourOf(place) {
  return "hsl(" + Math.round(place * 137.508 + 210) % 360 + " 65% var(--light))";
}

function forgetPlaces() {
  places = null;
}

function svg(tag, attributes, ...children) {
  const it = document.createElementNS("http://www.w3.org/2000/svg", tag);
  for (const [name, value] of Object.entries(attributes || {})) it.setAttribute(name, value);
  it.append(...children);
  return it;
}

/* The sig that gives an atom its name. */
const ownerOf = (atom) => /^["-]|^\d/.test(atom) ? null : atom.slice(0, atom.lastIndexOf("$"));

/* The atoms that some state shows, and the pairs that it joins. */
function allOf() {
  const atoms = new Set(), pairs = new Map();
  for (const state of trace.states) {
    for (const { label } of visible()) {
      for (const tuple of state[label]) {
        const first = tuple[0], last = tuple[tuple.length - 1];
        atoms.add(first).add(last);
        if (first !== last) pairs.set(first < last ? first + "->" + last : last + "->" + first, [first, last]);
      }
    }
  }
  return { atoms: trace.atoms.filter((it) => atoms.has(it)), pairs: [...pairs.values()] };
}

/* Places by springs and charges, from a circle on; the same for the same trace. */
function placed() {
  const { atoms, pairs } = allOf();
  const found = new Map();
  if (atoms.length > MOST_ATOMS) return found;
  const radius = 40 + 26 * atoms.length;
  atoms.forEach((atom, place) => {
    const turn = 2 * Math.PI * place / atoms.length;
    found.set(atom, { x: radius * Math.cos(turn), y: radius * Math.sin(turn) * 0.7 });
  });
  const at = [...found.values()], ends = pairs.map(([a, b]) => [found.get(a), found.get(b)]);
  const wish = 150, rounds = 250;
  for (let round = 0; round < rounds; round++) {
    const moves = at.map((it) => ({ x: -it.x * 0.02, y: -it.y * 0.06 }));
    at.forEach((one, i) => at.forEach((other, j) => {
      if (i === j) return;
      const x = one.x - other.x || (i - j) * 0.01, y = (one.y - other.y) * 1.6 || (j - i) * 0.01, square = x * x + y * y;
      moves[i].x += wish * wish * x / square * 0.35;
      moves[i].y += wish * wish * y / square * 0.35;
    }));
    for (const [a, b] of ends) {
      const x = b.x - a.x, y = b.y - a.y, pull = Math.hypot(x, y) / wish * 0.25;
      const i = at.indexOf(a), j = at.indexOf(b);
      moves[i].x += x * pull; moves[i].y += y * pull;
      moves[j].x -= x * pull; moves[j].y -= y * pull;
    }
    const most = 60 * (1 - round / rounds) + 1;
    at.forEach((it, i) => {
      const length = Math.hypot(moves[i].x, moves[i].y) || 1, step = Math.min(length, most) / length;
      it.x += moves[i].x * step;
      it.y += moves[i].y * step;
    });
  }
  return found;
}

/* What a state's graph has: nodes with words, and edges. */
function partsOf(state, before) {
  const nodes = new Map(), edges = [];
  const node = (atom) => {
    if (!nodes.has(atom)) nodes.set(atom, { atom, words: [], change: "" });
    return nodes.get(atom);
  };
  trace.relations.forEach(({ label }, place) => {
    if (view.hidden.has(label)) return;
    const name = label.slice(label.indexOf(".") + 1);
    for (const { tuple, change } of shown(state, before, label)) {
      if (tuple.length > 1) {
        const middle = tuple.slice(1, -1);
        node(tuple[0]);
        node(tuple[tuple.length - 1]);
        edges.push({ from: tuple[0], to: tuple[tuple.length - 1], place, change, name: middle.length ? name + " [" + middle.join(", ") + "]" : name });
      } else if (ownerOf(tuple[0]) === label) node(tuple[0]).change = change;
      else node(tuple[0]).words.push({ text: label, change });
    }
  });
  return { nodes: [...nodes.values()], edges };
}

const sign = (change) => change === "new" ? "+ " : change === "gone" ? "\u2212 " : "";

/* How large the box of a node is. */
function sizeOf(node) {
  const letters = Math.max(node.atom.length * 7.4, ...node.words.map((it) => (it.text.length + (it.change ? 2 : 0)) * 6.2));
  return { width: letters + 18, height: 26 + 14 * node.words.length };
}

/* Where a line from the middle of a box leaves it. */
function borderOf(at, size, x, y) {
  const reach = Math.min(x ? size.width / 2 / Math.abs(x) : Infinity, y ? size.height / 2 / Math.abs(y) : Infinity);
  return Number.isFinite(reach) ? { x: at.x + x * reach, y: at.y + y * reach } : at;
}

function drawNode(node, size) {
  const at = places.get(node.atom);
  const group = svg("g", { class: "node " + node.change, transform: "translate(" + at.x + " " + at.y + ")" });
  group.append(svg("rect", { x: -size.width / 2, y: -size.height / 2, width: size.width, height: size.height, rx: 7 }));
  group.append(svg("text", { y: -size.height / 2 + 18 }, sign(node.change) + node.atom));
  node.words.forEach(({ text, change }, place) => {
    group.append(svg("text", { class: "word " + change, y: -size.height / 2 + 32 + 14 * place }, sign(change) + text));
  });
  group.dataset.atom = node.atom;
  return group;
}

/* An edge as a curve; several between two atoms bend apart, and one to itself is a loop. */
function drawEdge(edge, sizes, bend) {
  const from = places.get(edge.from), to = places.get(edge.to), colour = colourOf(edge.place);
  let path, middle;
  if (edge.from === edge.to) {
    const top = from.y - sizes.get(edge.from).height / 2, high = 34 + 18 * bend;
    path = "M " + (from.x - 12) + " " + top + " C " + (from.x - 34) + " " + (top - high) + " " + (from.x + 34) + " " + (top - high) + " " + (from.x + 12) + " " + top;
    middle = { x: from.x, y: top - high * 0.75 };
  } else {
    const x = to.x - from.x, y = to.y - from.y, length = Math.hypot(x, y) || 1;
    const side = { x: -y / length * bend, y: x / length * bend };
    const control = { x: (from.x + to.x) / 2 + side.x, y: (from.y + to.y) / 2 + side.y };
    const a = borderOf(from, sizes.get(edge.from), control.x - from.x, control.y - from.y);
    const b = borderOf(to, sizes.get(edge.to), control.x - to.x, control.y - to.y);
    path = "M " + a.x + " " + a.y + " Q " + control.x + " " + control.y + " " + b.x + " " + b.y;
    middle = { x: (a.x + b.x) / 4 + control.x / 2, y: (a.y + b.y) / 4 + control.y / 2 };
  }
  const group = svg("g", { class: "edge " + edge.change, color: colour });
  const line = svg("path", { d: path, "marker-end": "url(#tip-" + edge.place + ")" });
  line.style.stroke = colour;
  const text = svg("text", { x: middle.x, y: middle.y + 4 }, sign(edge.change) + edge.name);
  if (!edge.change) text.style.fill = colour;
  group.append(line, text);
  return group;
}

/* The tips of arrows, one for each colour. */
function tips(edges) {
  const all = svg("defs");
  for (const place of new Set(edges.map((it) => it.place))) {
    const tip = svg("path", { d: "M 0 0 L 9 4.5 L 0 9 z" });
    tip.style.fill = colourOf(place);
    all.append(svg("marker", { id: "tip-" + place, viewBox: "0 0 9 9", refX: 8.5, refY: 4.5, markerWidth: 9, markerHeight: 9, markerUnits: "userSpaceOnUse", orient: "auto" }, tip));
  }
  return all;
}

/* How far the edges between two atoms bend, so that they part. */
function bendsOf(edges) {
  const together = new Map();
  for (const edge of edges) {
    const key = edge.from < edge.to ? edge.from + "->" + edge.to : edge.to + "->" + edge.from;
    if (!together.has(key)) together.set(key, []);
    together.get(key).push(edge);
  }
  const bends = new Map();
  for (const group of together.values()) {
    group.forEach((edge, place) => {
      if (edge.from === edge.to) bends.set(edge, place);
      else bends.set(edge, (place - (group.length - 1) / 2) * 46 * (edge.from < edge.to ? 1 : -1));
    });
  }
  return bends;
}

/* What the window of a graph shows: all places, with room for boxes and loops. */
function windowOf() {
  const all = [...places.values()];
  const xs = all.map((it) => it.x), ys = all.map((it) => it.y);
  const left = Math.min(...xs) - 90, top = Math.min(...ys) - 80;
  return [left, top, Math.max(...xs) + 90 - left, Math.max(...ys) + 60 - top];
}

/* An atom goes where the pointer drags it, in all states. */
function dragged(picture, state, before) {
  picture.addEventListener("pointerdown", (event) => {
    const group = event.target.closest(".node");
    if (!group) return;
    event.preventDefault();
    const place = (it) => new DOMPoint(it.clientX, it.clientY).matrixTransform(picture.getScreenCTM().inverse());
    const move = (it) => {
      const { x, y } = place(it);
      places.set(group.dataset.atom, { x, y });
      fill(picture, state, before);
    };
    const end = () => {
      removeEventListener("pointermove", move);
      removeEventListener("pointerup", end);
      drawStates();
    };
    addEventListener("pointermove", move);
    addEventListener("pointerup", end);
  });
}

function fill(picture, state, before) {
  const { nodes, edges } = partsOf(state, before);
  const sizes = new Map(nodes.map((it) => [it.atom, sizeOf(it)])), bends = bendsOf(edges);
  picture.replaceChildren(svg("title", {}, "Graph of state " + state), tips(edges));
  picture.append(...edges.map((it) => drawEdge(it, sizes, bends.get(it))), ...nodes.map((it) => drawNode(it, sizes.get(it.atom))));
  return nodes.length;
}

/* The graph of a state. What it shows stands in the tables too. */
function graphOf(state, before) {
  places = places || placed();
  if (!places.size) return make("p", { class: "note" }, "No graph: no atom to be drawn, or more than " + MOST_ATOMS + ".");
  const picture = svg("svg", { viewBox: windowOf().join(" "), role: "img", "aria-label": "Graph of state " + state + "; the tables have the same" });
  fill(picture, state, before);
  dragged(picture, state, before);
  return make("figure", {}, picture);
}

recall();
build();
listen();
draw();
</script>
</body>
</html>
"#;
