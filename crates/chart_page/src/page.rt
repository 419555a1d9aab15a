//! The two halves of a page, and what stands between them.
ghost use Rattle.std.specs.Prelude.{◌≡◌, IfOk};
ghost use Rattle.chart_page.specs.Pages.{page_back, page_front, page_round};

use linx_base::NoMemory;
use std::alloc::Global;

/// What stands before the chart.
#[tactic(auto, unfolding(crate::specs::Pages::page_front))]
fn front() -> &'static str
    ensures { result.now ≡ page_front }
{
    "<!DOCTYPE html>\n\
    <html lang='en'>\n\
    <meta charset='utf-8'>\n\
    <title>A run of linx_sim</title>\n\
    <style>\n\
    html{scroll-padding:130px 0 40px;background:#fff;color:#222}\n\
    body{margin:0;width:max-content;font:12px ui-monospace,'DejaVu Sans Mono',Menlo,Consolas,monospace}\n\
    header{position:sticky;top:0;left:0;z-index:1;box-sizing:border-box;width:100vw;height:32px;padding:4px 12px;background:inherit}\n\
    header input{font:inherit;width:220px;padding:2px 6px;border:1px solid #99a;background:transparent;color:inherit}\n\
    html,body,header{background:#fff}\n\
    svg{display:block}\n\
    .paper{fill:#fff}\n\
    @media(prefers-color-scheme:dark){\n\
    html,body,header{background:#14171b;color:#e4e6e8}\n\
    .paper{fill:#14171b}\n\
    }\n\
    </style>\n\
    <header><input placeholder='search: / and Enter' aria-label='search'> <output></output></header>\n"
}

/// What stands behind the chart.
#[tactic(auto, unfolding(crate::specs::Pages::page_back))]
fn back() -> &'static str
    ensures { result.now ≡ page_back }
{
    "<script>\n\
    const svg = document.querySelector('svg');\n\
    const box = document.querySelector('input');\n\
    const say = words => document.querySelector('output').textContent = words;\n\
    const number = (it, name) => +it.getAttribute(name);\n\
    const rows = [...svg.querySelectorAll('.row')];\n\
    const words = row => row.querySelector('title').textContent;\n\
    \n\
    // Captions stay above, and lines at the left: each lies on paper of its own, which is moved along.\n\
    function stay(items, width, height) {\n  \
    const group = svg.appendChild(document.createElementNS(svg.namespaceURI, 'g'));\n  \
    const paper = group.appendChild(document.createElementNS(svg.namespaceURI, 'rect'));\n  \
    Object.entries({ class: 'paper', width, height }).forEach(it => paper.setAttribute(...it));\n  \
    group.style.pointerEvents = 'none';\n  \
    group.append(...items);\n  \
    return { group, paper };\n\
    }\n\
    const { width, height } = svg.viewBox.baseVal;\n\
    const ground = [...svg.querySelectorAll('.node, .lane')].map(it => number(it, 'x'));\n\
    const lines = stay(svg.querySelectorAll('.line, .effect'), Math.min(width, ...ground) - 8, height);\n\
    const heads = stay([...svg.querySelectorAll('.back > *')].filter(it => number(it, 'y') > 0 && number(it, 'y') < 66), width, 66);\n\
    function move() {\n  \
    const right = Math.max(0, scrollX), down = Math.max(0, scrollY);\n  \
    lines.group.setAttribute('transform', `translate(${right} 0)`);\n  \
    heads.group.setAttribute('transform', `translate(0 ${down})`);\n  \
    lines.paper.style.opacity = right ? 1 : 0;\n  \
    heads.paper.style.opacity = down ? 1 : 0;\n\
    }\n\
    addEventListener('scroll', move);\n\
    move();\n\
    \n\
    // Rows are tied by the lines that join them: from the row where one begins to that where it ends.\n\
    const middles = new Map(rows.map(row => [number(row.querySelector('.hit'), 'y') + 9, row]));\n\
    const ties = new Map(rows.map(row => [row, []]));\n\
    for (const path of svg.querySelectorAll('.signal, .found, .notice, .queue, .queue-found, .queue-notice')) {\n  \
    const places = path.getAttribute('d').match(/[0-9]+/g);\n  \
    const ends = [places[1], places.at(-1)].map(it => middles.get(+it));\n  \
    if (ends[0] && ends[1] && ends[0] !== ends[1]) {\n    \
    ties.get(ends[0]).push(ends[1]);\n    \
    ties.get(ends[1]).push(ends[0]);\n  \
    }\n\
    }\n\
    let lit = [];\n\
    function light(which) {\n  \
    lit.forEach(row => row.classList.remove('lit'));\n  \
    lit = which;\n  \
    lit.forEach(row => row.classList.add('lit'));\n\
    }\n\
    function tied(row) {\n  \
    const found = new Set([row]);\n  \
    for (const one of found) ties.get(one).forEach(other => found.add(other));\n  \
    return rows.filter(it => found.has(it));\n\
    }\n\
    svg.addEventListener('click', event => {\n  \
    const row = event.target.closest('.row');\n  \
    if (!row) return;\n  \
    light(tied(row));\n  \
    say(lit.length > 1 ? `${lit.length - 1} more belong to this one` : '');\n\
    });\n\
    \n\
    // A search goes from row to row whose line has these words; the part of an address behind # is a row.\n\
    let hits = [], at = -1;\n\
    function show(row) {\n  \
    light([row]);\n  \
    row.scrollIntoView({ block: 'center' });\n\
    }\n\
    box.addEventListener('input', () => {\n  \
    hits = box.value ? rows.filter(row => words(row).includes(box.value)) : [];\n  \
    at = -1;\n  \
    say(box.value ? `${hits.length} rows` : '');\n\
    });\n\
    box.addEventListener('keydown', event => {\n  \
    if (event.key !== 'Enter' || !hits.length) return;\n  \
    at = (Math.max(at, event.shiftKey ? 0 : -1) + (event.shiftKey ? hits.length - 1 : 1)) % hits.length;\n  \
    show(hits[at]);\n  \
    say(`${at + 1} of ${hits.length}`);\n\
    });\n\
    addEventListener('keydown', event => {\n  \
    if (event.key !== '/' || event.target === box) return;\n  \
    event.preventDefault();\n  \
    box.focus();\n\
    });\n\
    function go() {\n  \
    const row = document.getElementById(location.hash.slice(1));\n  \
    if (row) show(row);\n\
    }\n\
    addEventListener('hashchange', go);\n\
    go();\n\
    </script>\n\
    </html>\n"
}

/// The page round a chart, which is the text of an SVG. It is as long as the chart and some 5,000
/// bytes more.
///
/// # Errors
///
/// Where memory is refused.
pub fn page_of(alloc: Global, svg: &[u8]) -> Result<Vec<u8>, NoMemory>
    ensures page { IfOk result (λ page. page.items ≡ page_round svg.now) }
{
    let mut page = Vec::new(alloc);
    page.extend_from_slice(front().as_bytes())?;
    page.extend_from_slice(svg)?;
    page.extend_from_slice(back().as_bytes())?;
    Ok(page)
}
