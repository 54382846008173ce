//! What the page does: it reads what `replay` and `wave` wrote of each run, and shows it at a place of the script. It computes nothing that the
//! rules define.

/// The script of a page.
pub const BEHAVIOUR: &[u8] = br##""use strict";
const byId = id => document.getElementById(id);
const UNITS = {d: 86400000000, h: 3600000000, m: 60000000, s: 1000000, ms: 1000};

// The microseconds of a duration such as T#1s_500ms.
function micros(text) {
  let total = 0;
  for (const [, number, unit] of text.matchAll(/([0-9.]+)(ms|d|h|m|s)/g)) total += Number(number) * UNITS[unit];
  return Math.round(total) * (text.includes("#-") ? -1 : 1);
}

// The duration of microseconds, as replay writes it.
function duration(number) {
  const parts = [];
  let rest = Math.abs(number);
  for (const unit of ["d", "h", "m", "s"]) {
    const count = Math.floor(rest / UNITS[unit]);
    if (count) parts.push(count + unit);
    rest -= count * UNITS[unit];
  }
  if (rest) parts.push((Math.floor(rest / 1000) + (rest % 1000 ? "." + String(rest % 1000).padStart(3, "0").replace(/0+$/, "") : "")) + "ms");
  return "T#" + (number < 0 ? "-" : "") + (parts.join("_") || "0s");
}

const listed = text => text === "-" ? [] : text.split(",");

// The place of the last of these numbers that isn't greater; -1 where none is.
function lastUpTo(numbers, most) {
  let low = 0, high = numbers.length;
  while (low < high) {
    const middle = (low + high) >> 1;
    if (numbers[middle] <= most) low = middle + 1; else high = middle;
  }
  return low - 1;
}

// How program instances stand: of each the places at which its line says something else, and what it says.
class Standing {
  constructor() { this.places = []; this.told = []; }
  tell(place, told) { this.places.push(place); this.told.push(told); }
  at(place) { const index = lastUpTo(this.places, place); return index < 0 ? null : this.told[index]; }
}

// What replay wrote: a place for each command, with its line, its instant, and what stands below it.
function readReplay(text) {
  const run = {lines: [], instants: [], scans: [], events: [], programs: new Map()};
  const programOf = name => {
    if (!run.programs.has(name)) run.programs.set(name, new Standing());
    return run.programs.get(name);
  };
  let instant = 0;
  for (const line of text.split("\n")) {
    const place = run.lines.length - 1;
    if (line.startsWith("  ")) {
      const words = line.trim().split(" ");
      if (words[1] === "fault") run.events.push([place, line.trim()]);
      if (words[2] === "steps") {
        const steps = new Map(listed(words[3]).map(it => it.split("=")));
        programOf(words[0]).tell(place, {scans: words[1], steps, cleared: new Set(listed(words[5])), ran: new Set(listed(words[7]))});
      }
      continue;
    }
    if (line === "" || line.startsWith("image ")) continue;
    const words = line.split(" ");
    if (words[0] === "refused") run.events.push([place + 1, line]);
    else {
      instant = micros(words[0]);
      if (words[1] === "SCAN" || words[1] === "SINGLE") run.scans.push(place + 1);
      if (line.endsWith(" hit")) run.events.push([place + 1, line]);
      if (words[1] === "RESET") programOf(words[2]).tell(place + 1, null);
    }
    run.lines.push(line);
    run.instants.push(instant);
  }
  return run;
}

// A number of so many bits in two's complement.
function signed(bits, width) {
  const number = BigInt("0b" + bits);
  return Number(bits.length === width && bits[0] === "1" ? number - (1n << BigInt(width)) : number);
}

// What wave wrote: of each signal its kind, the instants at which it changes, and what it reads then.
function readWave(text) {
  const signals = new Map(), codes = new Map(), scopes = [];
  let instant = 0;
  for (const line of text.split("\n")) {
    const first = line[0];
    if (first === "$") {
      const words = line.split(" ");
      if (words[0] === "$scope") scopes.push(words[2]);
      else if (words[0] === "$upscope") scopes.pop();
      else if (words[0] === "$var") {
        const signal = {name: [...scopes.slice(1), words[4]].join("."), kind: words[1], width: Number(words[2]), instants: [], reads: []};
        signals.set(signal.name, signal);
        codes.set(words[3], signal);
      }
    } else if (first === "#") instant = Number(line.slice(1));
    else if (first !== undefined) {
      const [read, code] = first === "b" || first === "s" ? line.slice(1).split(" ") : [first, line.slice(1)];
      const signal = codes.get(code);
      const value = first === "s" ? read : first === "b" ? signed(read, signal.width) : Number(read);
      const last = signal.instants.length - 1;
      if (signal.instants[last] === instant) signal.reads[last] = value;
      else { signal.instants.push(instant); signal.reads.push(value); }
    }
  }
  return signals;
}

// What a signal reads at an instant.
const readAt = (signal, instant) => signal.reads[lastUpTo(signal.instants, instant)];

// A reading as it is shown.
function shownAs(signal, read) {
  if (signal.kind === "string") return read;
  if (signal.kind === "wire") return read ? "TRUE" : "FALSE";
  return signal.width === 64 && !signal.name.endsWith(".overruns") ? duration(read) : String(read);
}

// The elements of the charts that a run colours.
function readCharts() {
  const charts = new Map();
  for (const chart of document.querySelectorAll("#charts .chart")) {
    const parts = {steps: [], rows: [], transitions: [], bodies: [], title: chart.querySelector("text")};
    parts.plain = parts.title.textContent.replace(/, scans .*$/, "");
    for (const element of chart.querySelectorAll(".step")) {
      const name = element.id.slice(chart.id.length + 6);
      const label = element.querySelector(":scope > .n"), time = element.querySelector(":scope > .time");
      parts.steps.push({element, name, label, time, high: Number(label.getAttribute("y"))});
      for (const row of element.querySelectorAll(":scope > .act")) {
        const said = row.querySelector("title").textContent.split(" with ")[0].split(" ");
        parts.rows.push({element: row, step: name, action: said[said.length - 1]});
      }
    }
    for (const element of chart.querySelectorAll(".trans")) parts.transitions.push({element, name: element.id.slice(chart.id.length + 12)});
    for (const element of chart.querySelectorAll(".body")) parts.bodies.push({element, name: element.id.slice(chart.id.length + 8)});
    charts.set(chart.id, parts);
  }
  return charts;
}

const cutTime = text => text.length > 11 ? text.slice(0, 9) + ".." : text;

// Colours a chart by how its instance stands, and by the variables that are forced.
function colour(chart, told, isForced) {
  const steps = told ? told.steps : new Map(), cleared = told ? told.cleared : new Set(), ran = told ? told.ran : new Set();
  for (const it of chart.steps) {
    const time = steps.get(it.name);
    it.element.classList.toggle("on", time !== undefined);
    it.label.setAttribute("y", it.high - (time === undefined ? 0 : 5));
    it.time.textContent = time === undefined ? "" : cutTime(time);
  }
  for (const it of chart.rows) {
    it.element.classList.toggle("ran", steps.has(it.step) && ran.has(it.action));
    it.element.classList.toggle("forced", isForced(it.action));
  }
  for (const it of chart.transitions) it.element.classList.toggle("fired", cleared.has(it.name));
  for (const it of chart.bodies) it.element.classList.toggle("ran", ran.has(it.name));
  chart.title.textContent = chart.plain + (told ? ", scans " + told.scans : "");
}

// The waveform as it is drawn on the canvas: rows of signals, and where a place of the script stands.
class Waveform {
  constructor(canvas) {
    this.canvas = canvas;
    // The rows, without the line at the place that is shown.
    this.still = document.createElement("canvas");
    this.high = 24;
  }
  set(signals, rows, last) {
    this.rows = rows.map(name => signals.get(name)).filter(it => it);
    this.last = Math.max(1, last);
    this.left = 20 + Math.max(60, ...this.rows.map(it => it.name.length * 7.3));
    this.wide = Math.max(300, Math.min(1100, document.body.clientWidth - this.left - 20));
    const scale = window.devicePixelRatio || 1;
    this.canvas.width = (this.left + this.wide + 10) * scale;
    this.canvas.height = (this.rows.length * this.high + 10) * scale;
    this.canvas.style.width = this.left + this.wide + 10 + "px";
    this.canvas.style.height = this.rows.length * this.high + 10 + "px";
    this.scale = scale;
    this.drawRows();
  }
  x(instant) { return this.left + instant / this.last * this.wide; }
  instantAt(x) { return (x - this.left) / this.wide * this.last; }
  drawRow(pen, signal, base, colours) {
    const count = signal.instants.length;
    pen.fillStyle = colours.ink;
    pen.textAlign = "right";
    pen.fillText(signal.name, this.left - 8, base - 3);
    pen.textAlign = "left";
    pen.strokeStyle = colours.blue;
    pen.beginPath();
    let before = -1;
    for (let index = 0; index < count; index++) {
      const from = this.x(signal.instants[index]), to = index + 1 < count ? this.x(signal.instants[index + 1]) : this.left + this.wide;
      if (signal.kind === "wire") {
        const y = base - (signal.reads[index] ? 14 : 0);
        if (before < 0) pen.moveTo(from, y); else pen.lineTo(from, y);
        pen.lineTo(to, y);
        before = to;
      } else if (to - from >= 3) {
        pen.rect(from, base - 14, to - from, 14);
        const said = shownAs(signal, signal.reads[index]);
        if (said.length * 7 + 8 < to - from) pen.fillText(said, from + 4, base - 3);
      } else if (from > before) {
        pen.rect(from, base - 14, 1, 14);
        before = from + 1;
      }
    }
    pen.stroke();
  }
  drawRows() {
    const style = getComputedStyle(document.documentElement), pen = this.still.getContext("2d");
    const colours = {ink: style.getPropertyValue("--ink"), blue: style.getPropertyValue("--blue")};
    this.still.width = this.canvas.width;
    this.still.height = this.canvas.height;
    pen.scale(this.scale, this.scale);
    pen.font = "12px monospace";
    this.rows.forEach((signal, place) => this.drawRow(pen, signal, (place + 1) * this.high, colours));
  }
  draw(instant) {
    const pen = this.canvas.getContext("2d");
    pen.setTransform(1, 0, 0, 1, 0, 0);
    pen.clearRect(0, 0, this.canvas.width, this.canvas.height);
    pen.drawImage(this.still, 0, 0);
    pen.scale(this.scale, this.scale);
    pen.strokeStyle = "#cf222e";
    pen.beginPath();
    pen.moveTo(this.x(instant), 0);
    pen.lineTo(this.x(instant), this.rows.length * this.high + 10);
    pen.stroke();
  }
}

// The names of the signals that are shown first, out of a save file.
const rowsOf = text => text.split("\n").filter(it => it && it[0] !== "[" && it[0] !== "@").map(it => it.replace(/^[^.]*\./, "").replace(/\[.*$/, ""));

const charts = readCharts(), waveform = new Waveform(byId("waveform"));
let run = null;

// The variables of a run, with whether each is forced.
function variablesOf(signals) {
  const found = [];
  for (const name of signals.keys()) if (signals.has(name + ".forced")) found.push({value: signals.get(name), forced: signals.get(name + ".forced")});
  return found;
}

// Shows the run at a place of its script.
function show(place) {
  const instant = run.instants[place] ?? 0;
  byId("place").value = place;
  byId("said").textContent = place < 0 ? "before the first command" : run.lines[place];
  const forced = new Set(run.variables.filter(it => readAt(it.forced, instant)).map(it => it.value.name));
  for (const [name, chart] of charts) {
    const standing = run.programs.get(name);
    const own = action => forced.has(name + "." + action) || (forced.has(action) && !run.signals.has(name + "." + action));
    colour(chart, standing ? standing.at(place) : null, action => own(action) && !chart.bodies.some(it => it.name === action));
  }
  run.variables.forEach((it, index) => {
    const [row, cell] = run.cells[index], said = shownAs(it.value, readAt(it.value, instant)) + (forced.has(it.value.name) ? " forced" : "");
    row.classList.toggle("changed", cell.textContent !== "" && cell.textContent !== said);
    row.classList.toggle("forced", forced.has(it.value.name));
    cell.textContent = said;
  });
  waveform.draw(instant);
}

// The table of variables, a row each.
function makeCells(variables) {
  const body = byId("values").tBodies[0];
  body.replaceChildren();
  return variables.map(it => {
    const row = body.insertRow();
    row.insertCell().textContent = it.value.name;
    return [row, row.insertCell()];
  });
}

// Faults, hits and refusals, each of which leads to its place.
function listEvents() {
  byId("events").replaceChildren(...run.events.map(([place, said]) => {
    const item = document.createElement("li"), button = document.createElement("button");
    button.textContent = duration(run.instants[place] ?? 0);
    button.onclick = () => show(place);
    item.append(button, " ", said);
    return item;
  }));
  if (run.events.length === 0) byId("events").textContent = "none";
}

// Shows another run.
function choose(number) {
  run = readReplay(byId("replay-" + number).textContent);
  run.signals = readWave(byId("wave-" + number).textContent);
  run.variables = variablesOf(run.signals);
  run.cells = makeCells(run.variables);
  byId("place").min = -1;
  byId("place").max = run.lines.length - 1;
  waveform.set(run.signals, rowsOf(byId("view-" + number).textContent), run.instants[run.instants.length - 1] ?? 0);
  listEvents();
  show(run.lines.length - 1);
}

// The nearest scan before or behind the place that is shown.
function goToScan(step) {
  const place = Number(byId("place").value), index = lastUpTo(run.scans, step > 0 ? place : place - 1) + (step > 0 ? 1 : 0);
  show(run.scans[index] ?? (step > 0 ? run.lines.length - 1 : -1));
}

const names = [...document.querySelectorAll("#runs tbody th")].map(it => it.textContent);
if (names.length === 0) byId("live").querySelector(".controls").hidden = true;
else {
  byId("which").replaceChildren(...names.map((name, number) => new Option(name, number)));
  byId("which").onchange = event => choose(Number(event.target.value));
  byId("place").oninput = event => show(Number(event.target.value));
  byId("before").onclick = () => goToScan(-1);
  byId("behind").onclick = () => goToScan(1);
  byId("waveform").onclick = event => show(lastUpTo(run.instants, waveform.instantAt(event.offsetX)));
  choose(0);
}
document.body.dataset.ready = "1";
"##;
