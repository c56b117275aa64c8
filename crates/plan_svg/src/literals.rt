// The parts of the picture that are the same for each plan.

/// How the picture begins, up to its width.
pub(crate) const BEGINNING: &str = "\
<?xml version=\"1.0\" encoding=\"UTF-8\"?>
<svg xmlns=\"http://www.w3.org/2000/svg\" xmlns:xlink=\"http://www.w3.org/1999/xlink\" version=\"1.1\" width=\"";

/// The style sheet. `b c d f g i j l o p q r u y z` are classes of marks. In the legend cells, RAMs, networks and frames have `k` before their class, and
/// pins have `kp`.
pub(crate) const STYLE: &str = "\
<style type=\"text/css\">
text{font-family:sans-serif;fill:#222}
.h{font-size:22px;font-weight:bold}
.t{font-size:15px;font-weight:bold}
.k{font-size:14px}
.v{font-size:14px;text-anchor:end}
.a{font-size:11px;fill:#6b7580;text-anchor:middle}
.n{font-family:monospace;font-size:11px}
.e{font-family:monospace;font-size:11px;text-anchor:end}
.m{font-size:10px;fill:#fff;text-anchor:middle}
.gt{font-size:9px;font-weight:bold;text-anchor:middle;pointer-events:none}
.s0,.k0,.wh{fill:#fff}
.s1,.k1{fill:#eff3f6}
.s2,.k2{fill:#dee5eb}
.s3,.k3{fill:#cbd5de}
.s4,.k4{fill:#b6c2ce}
.s5,.k5{fill:#a0afbe}
.s6,.k6{fill:#8a9bad}
.w{stroke:#93a0ad;stroke-width:.7}
.x{fill:#fff;stroke:#c5ced7;stroke-width:.5}
.l,.kl{fill:#d55e00}
.f,.kf,.d,.kd,.re{fill:#0a3470}
.c,.kc,.cb{fill:#1f9e68}
.r,.u,.kr{fill:#7a3a8c}
.sl{stroke:#fff;stroke-width:1.4}
.se{stroke:#c9a9d4;stroke-width:.6}
.i,.j,.o,.p,.b,.q,.kp{fill:#222;stroke:#222;stroke-width:1.6;stroke-linejoin:round}
.ho{fill:#fff}
.re{stroke:none}
.g,.kg{fill:#ffd23f;stroke:#222;pointer-events:none}
.z,.kz{fill:#fff;stroke:#888;pointer-events:none}
.y,.ky{fill:none;stroke:#b0006d;stroke-width:3;pointer-events:none}
.ci{font-size:6px;text-anchor:middle}
</style>
";

/// The shapes.
pub(crate) const SHAPES: &str = "\
<defs>
<g id=\"L\"><rect class=\"w\" width=\"40\" height=\"40\" rx=\"2\"/><path class=\"x\" d=\"M2.5 29.5h17v8h-17zM20.5 29.5h17v8h-17zM2.5 20.5h17v8h-17zM20.5 20.5h17v8h-17zM2.5 11.5h17v8h-17zM20.5 11.5h17v8h-17zM2.5 2.5h17v8h-17zM20.5 2.5h17v8h-17z\"/></g>
<g id=\"I0\"><rect class=\"w\" width=\"40\" height=\"40\" rx=\"2\"/><circle class=\"x\" cx=\"11\" cy=\"30\" r=\"3\"/><circle class=\"x\" cx=\"11\" cy=\"10\" r=\"3\"/></g>
<g id=\"I1\"><rect class=\"w\" width=\"40\" height=\"40\" rx=\"2\"/><circle class=\"x\" cx=\"10\" cy=\"11\" r=\"3\"/><circle class=\"x\" cx=\"30\" cy=\"11\" r=\"3\"/></g>
<g id=\"I2\"><rect class=\"w\" width=\"40\" height=\"40\" rx=\"2\"/><circle class=\"x\" cx=\"29\" cy=\"30\" r=\"3\"/><circle class=\"x\" cx=\"29\" cy=\"10\" r=\"3\"/></g>
<g id=\"I3\"><rect class=\"w\" width=\"40\" height=\"40\" rx=\"2\"/><circle class=\"x\" cx=\"10\" cy=\"29\" r=\"3\"/><circle class=\"x\" cx=\"30\" cy=\"29\" r=\"3\"/></g>
<g id=\"B\"><path class=\"w\" d=\"M0 -2v40a2 2 0 0 0 2 2h36a2 2 0 0 0 2 -2v-40\"/><path class=\"x\" d=\"M4 -2v38h32v-38\"/></g>
<g id=\"T\"><path class=\"w\" d=\"M0 41v-39a2 2 0 0 1 2 -2h36a2 2 0 0 1 2 2v39\"/><path class=\"x\" d=\"M4 41v-37h32v37\"/></g>
<path id=\"l\" d=\"M0 0h16v7h-16z\"/>
<g id=\"f\"><path d=\"M0 0h16v7h-16z\"/><path class=\"wh\" d=\"M0 1.5l3 2l-3 2z\"/></g>
<path id=\"c\" d=\"M0 0h9v7h-9zM11.5 0h4.5v7h-4.5z\"/>
<g id=\"d\"><path d=\"M0 0h9v7h-9z\"/><path class=\"wh\" d=\"M0 1.5l3 2l-3 2z\"/><path class=\"cb\" d=\"M11.5 0h4.5v7h-4.5z\"/></g>
<path id=\"write0\" d=\"M4 -2h32v38h-32z\"/>
<g id=\"write1\"><path d=\"M4 -2h32v38h-32z\"/><path class=\"sl\" d=\"M20 0v22\"/></g>
<g id=\"write2\"><path d=\"M4 -2h32v38h-32z\"/><path class=\"sl\" d=\"M12 0v22M20 0v22M28 0v22\"/></g>
<g id=\"write3\"><path d=\"M4 -2h32v38h-32z\"/><path class=\"sl\" d=\"M8 0v22M12 0v22M16 0v22M20 0v22M24 0v22M28 0v22M32 0v22\"/></g>
<g id=\"read0\"><path d=\"M4 4h32v37h-32z\"/><path class=\"se\" d=\"M4 41h32\"/></g>
<g id=\"read1\"><path d=\"M4 4h32v37h-32z\"/><path class=\"sl\" d=\"M20 18v22\"/><path class=\"se\" d=\"M4 41h32\"/></g>
<g id=\"read2\"><path d=\"M4 4h32v37h-32z\"/><path class=\"sl\" d=\"M12 18v22M20 18v22M28 18v22\"/><path class=\"se\" d=\"M4 41h32\"/></g>
<g id=\"read3\"><path d=\"M4 4h32v37h-32z\"/><path class=\"sl\" d=\"M8 18v22M12 18v22M16 18v22M20 18v22M24 18v22M28 18v22M32 18v22\"/><path class=\"se\" d=\"M4 41h32\"/></g>
<path id=\"i\" class=\"ho\" d=\"M-8 -6h16l-8 12z\"/>
<g id=\"j\"><path class=\"ho\" d=\"M-8 -7h16l-8 12z\"/><path class=\"re\" d=\"M-8 5h16v4h-16z\"/></g>
<path id=\"o\" d=\"M-8 6h16l-8 -12z\"/>
<g id=\"p\"><path d=\"M-8 3h16l-8 -12z\"/><path class=\"re\" d=\"M-8 5h16v4h-16z\"/></g>
<g id=\"b\"><path d=\"M-8 -1h16l-8 -8z\"/><path class=\"ho\" d=\"M-8 1h16l-8 8z\"/></g>
<g id=\"q\"><path d=\"M-8 -3h16l-8 -6z\"/><path class=\"ho\" d=\"M-8 -2h16l-8 6z\"/><path class=\"re\" d=\"M-8 5h16v4h-16z\"/></g>
<path id=\"Q0\" d=\"M0 0h32v14h-32z\"/>
<g id=\"Q1\"><path d=\"M0 0h32v14h-32z\"/><path class=\"sl\" d=\"M16 0v14\"/></g>
<g id=\"Q2\"><path d=\"M0 0h32v14h-32z\"/><path class=\"sl\" d=\"M8 0v14M16 0v14M24 0v14\"/></g>
<g id=\"Q3\"><path d=\"M0 0h32v14h-32z\"/><path class=\"sl\" d=\"M4 0v14M8 0v14M12 0v14M16 0v14M20 0v14M24 0v14M28 0v14\"/></g>
<circle id=\"C\" r=\"6\"/>
<rect id=\"F\" x=\"-6\" y=\"-6\" width=\"12\" height=\"12\"/>
<rect id=\"Y\" x=\"-1\" y=\"-1\" width=\"42\" height=\"42\" rx=\"3\"/>
</defs>
";

/// The rows of logic cells in the legend, each up to its number.
pub(crate) const CELL_ROWS: [&str; 5] = [
    "\
<text class=\"t\" y=\"84\">Logic cells</text>
<path class=\"wh w\" d=\"M0 96h32v14h-32z\"/><text class=\"k\" x=\"48\" y=\"108\">unused</text><text class=\"v\" x=\"284\" y=\"108\">",
    "\
</text>
<use class=\"kl\" xlink:href=\"#l\" transform=\"translate(0 116) scale(2)\"/><text class=\"k\" x=\"48\" y=\"128\">LUT</text><text class=\"v\" x=\"284\" y=\"128\">",
    "\
</text>
<use class=\"kf\" xlink:href=\"#f\" transform=\"translate(0 136) scale(2)\"/><text class=\"k\" x=\"48\" y=\"148\">LUT with flip-flop</text><text class=\"v\" x=\"284\" y=\"148\">",
    "\
</text>
<use class=\"kc\" xlink:href=\"#c\" transform=\"translate(0 156) scale(2)\"/><text class=\"k\" x=\"48\" y=\"168\">carry</text><text class=\"v\" x=\"284\" y=\"168\">",
    "\
</text>
<use class=\"kd\" xlink:href=\"#d\" transform=\"translate(0 176) scale(2)\"/><text class=\"k\" x=\"48\" y=\"188\">carry with flip-flop</text><text class=\"v\" x=\"284\" y=\"188\">",
];

/// The rows of RAMs, each up to its number.
pub(crate) const RAM_ROWS: [&str; 2] = [
    "\
</text>
<use class=\"k0\" xlink:href=\"#L\" y=\"198\"/><text class=\"ci\" x=\"11\" y=\"234\">0</text><text class=\"ci\" x=\"29\" y=\"234\">1</text><text class=\"ci\" x=\"11\" y=\"225\">2</text><text class=\"ci\" x=\"29\" y=\"225\">3</text><text class=\"ci\" x=\"11\" y=\"216\">4</text><text class=\"ci\" x=\"29\" y=\"216\">5</text><text class=\"ci\" x=\"11\" y=\"207\">6</text><text class=\"ci\" x=\"29\" y=\"207\">7</text><text class=\"k\" x=\"48\" y=\"223\">cells 0 to 7 of a tile</text>
<text class=\"t\" y=\"264\">Block RAMs</text>
<path class=\"wh w\" d=\"M0 276h32v14h-32z\"/><text class=\"k\" x=\"48\" y=\"288\">unused</text><text class=\"v\" x=\"284\" y=\"288\">",
    "\
</text>
<path class=\"kr\" d=\"M0 296h32v14h-32z\"/><text class=\"k\" x=\"48\" y=\"308\">used</text><text class=\"v\" x=\"284\" y=\"308\">",
];

/// The rows of pins, each up to its number.
pub(crate) const PIN_ROWS: [&str; 7] = [
    "\
</text>
<text class=\"k\" x=\"48\" y=\"328\">bits in a word: R reads, W writes</text>
<use class=\"kr\" xlink:href=\"#Q0\" x=\"0\" y=\"336\"/><text class=\"k\" x=\"38\" y=\"348\">16</text><use class=\"kr\" xlink:href=\"#Q1\" x=\"72\" y=\"336\"/><text class=\"k\" x=\"110\" y=\"348\">8</text><use class=\"kr\" xlink:href=\"#Q2\" x=\"144\" y=\"336\"/><text class=\"k\" x=\"182\" y=\"348\">4</text><use class=\"kr\" xlink:href=\"#Q3\" x=\"216\" y=\"336\"/><text class=\"k\" x=\"254\" y=\"348\">2</text>
<text class=\"t\" y=\"380\">Pins</text>
<circle class=\"wh w\" cx=\"16\" cy=\"399\" r=\"3\"/><text class=\"k\" x=\"48\" y=\"404\">no port</text><text class=\"v\" x=\"284\" y=\"404\">",
    "\
</text>
<use class=\"kp\" xlink:href=\"#i\" x=\"16\" y=\"419\"/><text class=\"k\" x=\"48\" y=\"424\">input</text><text class=\"v\" x=\"284\" y=\"424\">",
    "\
</text>
<use class=\"kp\" xlink:href=\"#j\" x=\"16\" y=\"439\"/><text class=\"k\" x=\"48\" y=\"444\">input, register</text><text class=\"v\" x=\"284\" y=\"444\">",
    "\
</text>
<use class=\"kp\" xlink:href=\"#o\" x=\"16\" y=\"459\"/><text class=\"k\" x=\"48\" y=\"464\">output</text><text class=\"v\" x=\"284\" y=\"464\">",
    "\
</text>
<use class=\"kp\" xlink:href=\"#p\" x=\"16\" y=\"479\"/><text class=\"k\" x=\"48\" y=\"484\">output, register</text><text class=\"v\" x=\"284\" y=\"484\">",
    "\
</text>
<use class=\"kp\" xlink:href=\"#b\" x=\"16\" y=\"499\"/><text class=\"k\" x=\"48\" y=\"504\">output, enable</text><text class=\"v\" x=\"284\" y=\"504\">",
    "\
</text>
<use class=\"kp\" xlink:href=\"#q\" x=\"16\" y=\"519\"/><text class=\"k\" x=\"48\" y=\"524\">output, enable, register</text><text class=\"v\" x=\"284\" y=\"524\">",
];

/// What comes between the numbers of pins and the rows of global networks.
pub(crate) const LINK_ROWS: &str = "\
</text>
<text class=\"t\" y=\"556\">Links that are on in a tile</text>
<rect class=\"k0 w\" x=\"0\" y=\"568\" width=\"38\" height=\"18\"/><text class=\"a\" x=\"19\" y=\"600\">0</text>
<rect class=\"k1 w\" x=\"40\" y=\"568\" width=\"38\" height=\"18\"/><text class=\"a\" x=\"59\" y=\"600\">1+</text>
<rect class=\"k2 w\" x=\"80\" y=\"568\" width=\"38\" height=\"18\"/><text class=\"a\" x=\"99\" y=\"600\">10+</text>
<rect class=\"k3 w\" x=\"120\" y=\"568\" width=\"38\" height=\"18\"/><text class=\"a\" x=\"139\" y=\"600\">20+</text>
<rect class=\"k4 w\" x=\"160\" y=\"568\" width=\"38\" height=\"18\"/><text class=\"a\" x=\"179\" y=\"600\">30+</text>
<rect class=\"k5 w\" x=\"200\" y=\"568\" width=\"38\" height=\"18\"/><text class=\"a\" x=\"219\" y=\"600\">40+</text>
<rect class=\"k6 w\" x=\"240\" y=\"568\" width=\"38\" height=\"18\"/><text class=\"a\" x=\"259\" y=\"600\">50+</text>
<text class=\"t\" y=\"630\">Global nets and their sources</text>
";

/// The heading of the PLLs, up to their number.
pub(crate) const PLL_HEAD: &str = "\
<text class=\"t\" y=\"826\">PLLs that are set</text><text class=\"v\" x=\"284\" y=\"826\">";
