//! What stands around the content of the page: its looks, and what sorts its tables.

/// The beginning of the page. Nothing is fetched from outside.
pub(crate) const HEAD: &'static str = "<!DOCTYPE html>
<html lang=en>
<head>
<meta charset=utf-8>
<meta name=viewport content=\"width=device-width, initial-scale=1\">
<meta http-equiv=Content-Security-Policy content=\"default-src 'none'; style-src 'unsafe-inline'; script-src 'unsafe-inline'\">
<style>
:root{color-scheme:light dark;--ink:#1a1a1a;--paper:#fff;--faint:#666;--rule:#ccc;--mark:#1f5fa8;--shade:#f3f3f3;--warn:#ffe3b8}
@media (prefers-color-scheme:dark){
:root{--ink:#e8e8e8;--paper:#16181b;--faint:#a0a0a0;--rule:#444;--mark:#7db3f0;--shade:#22262b;--warn:#57400f}}
*{box-sizing:border-box}
body{margin:0;padding:1.5rem;background:var(--paper);color:var(--ink);font:15px/1.45 system-ui,sans-serif}
main{max-width:72rem;margin:0 auto}
h1{font-size:1.5rem;margin:0 0 .3rem}
h2{font-size:1.1rem;margin:2rem 0 .6rem}
p{margin:.3rem 0;overflow-wrap:anywhere}
dl{display:flex;flex-wrap:wrap;gap:.5rem 2rem;margin:1rem 0}
dt{color:var(--faint);font-size:.85rem}
dd{margin:0;font-weight:600;overflow-wrap:anywhere}
.wide{overflow-x:auto;max-width:100%}
.grid{overflow:auto;max-width:100%;max-height:85vh;width:fit-content}
table{border-collapse:collapse;font-variant-numeric:tabular-nums}
th,td{padding:.25rem .6rem;border-bottom:1px solid var(--rule);text-align:left;vertical-align:top}
td{max-width:22rem;overflow-wrap:anywhere}
td.n{max-width:none;text-align:right;white-space:nowrap}
th{position:sticky;top:0;background:var(--shade);white-space:nowrap;box-shadow:inset 0 -1px var(--rule)}
tr.mark td{background:var(--warn);font-weight:600}
ul.conflict{margin:.3rem 0;padding-left:1.2rem}
th button{all:unset;cursor:pointer;font-weight:600}
th button:focus-visible{outline:2px solid var(--mark)}
th[aria-sort=ascending] button::after{content:\" \\2191\"}
th[aria-sort=descending] button::after{content:\" \\2193\"}
small{display:block;color:var(--faint);font-weight:400}
td.n small{white-space:normal;overflow-wrap:anywhere;max-width:11rem;margin-left:auto}
dd small,li small{display:inline;margin-left:.4em}
.print{display:none}
svg{display:block}
svg line,svg path{stroke:var(--ink);stroke-width:1.5;fill:none}
svg path.axis{stroke:var(--faint);stroke-width:1}
svg circle{fill:var(--paper);stroke:var(--ink);stroke-width:2}
svg rect{fill:var(--shade);stroke:var(--ink)}
svg text{fill:var(--ink);font-size:12px}
svg text.end{text-anchor:end}
svg text.mid{text-anchor:middle}
@media (max-width:600px){body{padding:.8rem}th,td{padding:.25rem .4rem}}
@page{size:landscape;margin:12mm}
@media print{
:root{color-scheme:light;--ink:#000;--paper:#fff;--faint:#000;--rule:#888;--shade:#fff;--warn:#ddd}
body{padding:0;font-size:9pt}
main{max-width:none}
.wide,.grid{overflow:visible;max-height:none}
.screen{display:none}
.print{display:block}
h2,h2+p,dl{break-after:avoid}
thead{display:table-header-group}
th button{display:contents}
tr,svg,li{break-inside:avoid}
th{position:static}
th,td{padding:.1rem .3rem}
td.n small{max-width:7rem}
svg{max-width:100%;height:auto}
}
</style>
<title>Report ";

/// What stands between the title and the content.
pub(crate) const BODY: &'static str = "</title>
</head>
<body>
<main>
";

/// The end of the page: what sorts a table by the cells of a column. Fractions are told apart by their quotients, names by the whole
/// numbers in them.
pub(crate) const TAIL: &'static str = "</main>
<script>
const words=new Intl.Collator('en',{numeric:true});
function key(cell){
  const small=cell.querySelector('small'),text=(small||cell).textContent.trim();
  if(cell.className!=='n')return text;
  if(/^-?\\d+\\.?\\d*(E-?\\d+)?$/.test(text))return Number(text);
  const found=/^(-?\\d+)(?:\\/(\\d+))?$/.exec(text);
  return found?Number(found[1])/Number(found[2]||1):text;
}
function order(a,b){
  const numbers=typeof a==='number',others=typeof b==='number';
  if(numbers&&others)return a-b;
  if(numbers!==others)return numbers?-1:1;
  return words.compare(a,b);
}
document.querySelectorAll('th button').forEach(function(button){
  button.addEventListener('click',function(){
    const head=button.parentElement,row=head.parentElement,body=row.closest('table').tBodies[0];
    const place=Array.prototype.indexOf.call(row.children,head);
    const down=head.getAttribute('aria-sort')==='ascending';
    for(const other of row.children)other.removeAttribute('aria-sort');
    head.setAttribute('aria-sort',down?'descending':'ascending');
    const lines=Array.from(body.rows,function(line){return[key(line.cells[place]),line];});
    lines.sort(function(a,b){return down?order(b[0],a[0]):order(a[0],b[0]);});
    const all=document.createDocumentFragment();
    for(const line of lines)all.append(line[1]);
    body.append(all);
  });
});
</script>
</body>
</html>
";
