// What each page has, whatever it is of.

/// The beginning of the document. Nothing is loaded from elsewhere, and no script runs but that of
/// the page, which is known by its checksum.
pub(crate) const HEAD: &str = "<!DOCTYPE html>
<html lang=\"en\">
<head>
<meta charset=\"utf-8\">
<meta http-equiv=\"Content-Security-Policy\" content=\"default-src 'none'; style-src 'unsafe-inline'; script-src 'sha256-z6QbMfu2kJB5TFM2MmmdfiNFoy34E86Q7DQgi4T0XHg='; base-uri 'none'; form-action 'none'\">
<meta name=\"viewport\" content=\"width=device-width, initial-scale=1\">
<meta name=\"color-scheme\" content=\"light dark\">
";

/// How the page looks: light, dark, printed, and on a narrow screen, where each row of a table is a
/// block with the names of its columns.
pub(crate) const STYLE: &str =
    ":root{color-scheme:light dark;--ink:#1b1f24;--dim:#57606a;--paper:#fff;--ground:#f6f8fa;--line:#d0d7de;--mark:#9a6700;--link:#0550ae}
@media screen and (prefers-color-scheme:dark){:root{--ink:#e6edf3;--dim:#9198a1;--paper:#0d1117;--ground:#161b22;--line:#30363d;--mark:#d29922;--link:#79b8ff}}
*{box-sizing:border-box}
body{margin:0 auto;padding:1rem;max-width:90rem;background:var(--paper);color:var(--ink);font:16px/1.5 system-ui,sans-serif}
h1{font-size:1.6rem;line-height:1.2;margin:.5rem 0}
h2{font-size:1.25rem;margin:2.5rem 0 .5rem;border-bottom:1px solid var(--line)}
h3{font-size:1.05rem;margin:1.5rem 0 .25rem}
a{color:var(--link)}
code{font:.875em ui-monospace,SFMono-Regular,Menlo,Consolas,monospace;unicode-bidi:isolate;overflow-wrap:anywhere}
h3 code,td>code,.jobs{color:var(--dim);font-weight:400}
dl{display:grid;grid-template-columns:max-content 1fr;gap:.1rem 1rem;margin:1rem 0}
dt{color:var(--dim)}
dd{margin:0;overflow-wrap:anywhere}
nav{display:flex;flex-wrap:wrap;gap:.25rem 1.25rem;margin:1rem 0}
.advice{max-width:60rem;margin:.25rem 0;padding:.5rem .75rem;background:var(--ground);border-left:4px solid var(--mark)}
li{overflow-wrap:anywhere}
.wide{overflow-x:auto}
.wide>svg{display:block}
.tall{max-height:26rem;overflow-y:auto}
table{border-collapse:collapse;width:100%;font-size:.875rem}
caption{caption-side:top;text-align:left;color:var(--dim);padding:.25rem 0}
th,td{text-align:left;vertical-align:top;padding:.35rem .6rem;border-bottom:1px solid var(--line)}
thead th{background:var(--ground);white-space:nowrap}
tbody th{overflow-wrap:anywhere;min-width:9rem}
td[data-column^=Last],td[data-column^=Next],td[data-column^=When]{white-space:nowrap;font-variant-numeric:tabular-nums}
.look summary,.look>p{color:var(--mark);font-weight:600}
td[data-column=Schedule]{min-width:8.5rem}
td>code{display:block;white-space:nowrap}
td summary{white-space:nowrap}
td p{margin:.25rem 0;max-width:40rem}
summary{cursor:pointer}
thead button{font:inherit;color:inherit;background:none;border:0;padding:0;cursor:pointer}
th[aria-sort=ascending] button::after{content:\" ↑\"}
th[aria-sort=descending] button::after{content:\" ↓\"}
footer{margin-top:3rem;color:var(--dim);font-size:.875rem}
@media screen and (max-width:45rem){
.sorted,.sorted tbody,.sorted tr,.sorted th,.sorted td,.sorted caption{display:block;width:auto}
.sorted thead{display:none}
.sorted tr{margin:.75rem 0;border:1px solid var(--line);border-radius:.4rem}
.sorted th,.sorted td{border:0;padding:.25rem .6rem;white-space:normal!important}
.sorted tbody th{background:var(--ground)}
.sorted td::before{content:attr(data-column) \": \";color:var(--dim)}
.sorted td details{display:inline-block;vertical-align:top}
}
@media print{
body{max-width:none;padding:0;font-size:10pt}
nav,footer{display:none}
.wide,.tall{overflow:visible;max-height:none}
.wide>svg{max-width:100%;height:auto}
table{font-size:8pt}
tr,li,.advice{break-inside:avoid}
h2,h3{break-after:avoid}
}
";

/// The end of the document, with the script that sorts a table by the column whose head is pressed.
pub(crate) const FOOT: &str = "</main>
<footer>
<p>Printed by cronsim report. What is found and why: audit, why, upcoming and describe print it too.</p>
</footer>
<script>for (const head of document.querySelectorAll(\"table.sorted thead th\")) {
  const button = document.createElement(\"button\");
  button.type = \"button\";
  button.append(...head.childNodes);
  head.append(button);
  button.onclick = () => {
    const down = head.getAttribute(\"aria-sort\") === \"ascending\" ? -1 : 1;
    for (const other of head.parentNode.cells) other.removeAttribute(\"aria-sort\");
    head.setAttribute(\"aria-sort\", down > 0 ? \"ascending\" : \"descending\");
    const value = row => {
      const cell = row.cells[head.cellIndex];
      return cell.dataset.order ?? (cell.querySelector(\"summary\") ?? cell).textContent;
    };
    const body = head.closest(\"table\").tBodies[0];
    const rows = [...body.rows].sort((a, b) =>
      down * value(a).localeCompare(value(b), \"en\", { numeric: true }));
    body.append(...rows);
  };
}</script>
</body>
</html>
";
