//! How shapes and texts look.

/// How the words of a text look.
#[derive(Clone, Copy)]
pub enum Ink {
    Plain,
    /// Larger and bold.
    Heading,
    Bold,
    /// Paler than the others.
    Dim,
}

impl Ink {
    /// The name of its class in `STYLE`.
    pub(crate) fn class(self) -> &'static str {
        match self {
            Ink::Plain => "plain",
            Ink::Heading => "heading",
            Ink::Bold => "bold",
            Ink::Dim => "dim",
        }
    }
}

/// What a rectangle is filled with.
#[derive(Clone, Copy)]
pub enum Fill {
    /// One of six colors in turn.
    Hue(usize),
    /// Slanting lines.
    Hatched,
    /// A color near that of the page.
    Blank,
}

impl Fill {
    /// The name of its class in `STYLE`.
    pub(crate) fn class(self) -> &'static str {
        match self {
            Fill::Hue(number) => match number % 6 {
                0 => "hue0",
                1 => "hue1",
                2 => "hue2",
                3 => "hue3",
                4 => "hue4",
                _ => "hue5",
            },
            Fill::Hatched => "hatched",
            Fill::Blank => "blank",
        }
    }
}

/// The style of a document, and the shapes that it names: the hatching, and the head of an arrow.
pub(crate) static STYLE: &str = "\
<style>
text{font-family:monospace;font-size:12px;fill:#1f2328}
.heading{font-size:14px;font-weight:bold}.bold{font-weight:bold}.dim{fill:#57606a}
rect{stroke:#57606a}.page{fill:#ffffff;stroke:none}.blank{fill:#f6f8fa}.hatched{fill:url(#hatching)}
.hatch{fill:none;stroke:#8c959f}.arrow{fill:none;stroke:#57606a}.head{fill:#57606a}
.hue0{fill:#d4e5f7}.hue1{fill:#d4f7da}.hue2{fill:#f7e6d4}.hue3{fill:#ebd4f7}.hue4{fill:#f7f7d4}.hue5{fill:#f7d4e6}
@media (prefers-color-scheme:dark){
text{fill:#e6edf3}.dim{fill:#8b949e}
rect{stroke:#8b949e}.page{fill:#0d1117}.blank{fill:#161b22}
.hatch{stroke:#6e7681}.arrow{stroke:#8b949e}.head{fill:#8b949e}
.hue0{fill:#24384c}.hue1{fill:#244c2b}.hue2{fill:#4c3824}.hue3{fill:#3f244c}.hue4{fill:#4c4c24}.hue5{fill:#4c2438}
}
</style>
<defs>
<pattern id=\"hatching\" width=\"6\" height=\"6\" patternUnits=\"userSpaceOnUse\">
<path class=\"hatch\" d=\"M-1 1L1 -1M0 6L6 0M5 7L7 5\"/>
</pattern>
<marker id=\"head\" viewBox=\"0 0 8 8\" refX=\"8\" refY=\"4\" markerWidth=\"7\" markerHeight=\"7\" orient=\"auto\">
<path class=\"head\" d=\"M0 0L8 4L0 8z\"/>
</marker>
</defs>
";
