//! What is the same in each drawing.

ghost use Rattle.std.specs.Prelude.{◌≡◌, ◌++◌, OnOk};
ghost use Rattle.block_draw.specs.Page as page;

use std::alloc::AllocError;

// Writes the size of the page, its letters and its ground.
#[tactic(auto, unfolding(crate::specs::Page::page_size))]
fn put_page_size(out: &mut Vec<u8>) -> Result<(), AllocError>
    ensures ok { OnOk result (out.new.items ≡ out.old.items ++ page.page_size) }
{
    out.extend_from_slice(b"<svg xmlns='http://www.w3.org/2000/svg' viewBox='0 0 1220 1080' ")?;
    out.extend_from_slice(b"font-family='monospace' font-size='12' text-anchor='middle'>\n")?;
    out.extend_from_slice(b"<rect class='page' width='1220' height='1080'/>\n")
}

// Writes the boxes by when their instructions fire.
#[tactic(auto, unfolding(crate::specs::Page::box_style))]
fn put_box_style(out: &mut Vec<u8>) -> Result<(), AllocError>
    ensures ok { OnOk result (out.new.items ≡ out.old.items ++ page.box_style) }
{
    out.extend_from_slice(
        b"<style>rect,circle{fill:#fff;stroke:#333}.yes{fill:#e2f3e2;stroke:#1b6e1b}\n",
    )?;
    out.extend_from_slice(
        b".no{fill:#fdebd8;stroke:#a34d00}.null{fill:#ece6f6;stroke:#6b3fa0;stroke-dasharray:3 2}\n",
    )
}

// Writes the marks on them.
#[tactic(auto, unfolding(crate::specs::Page::mark_style))]
fn put_mark_style(out: &mut Vec<u8>) -> Result<(), AllocError>
    ensures ok { OnOk result (out.new.items ≡ out.old.items ++ page.mark_style) }
{
    out.extend_from_slice(
        b".on{fill:#1b6e1b;stroke:#1b6e1b}.off{stroke:#a34d00;stroke-width:2}\n",
    )?;
    out.extend_from_slice(
        b".slot{fill:#555;font-size:9px}.title{font-size:16px}.page{stroke:none}.op,.yes,.no{fill-opacity:.8}\n",
    )
}

// Writes the arcs of tokens by where they go.
#[tactic(auto, unfolding(crate::specs::Page::arc_style))]
fn put_arc_style(out: &mut Vec<u8>) -> Result<(), AllocError>
    ensures ok { OnOk result (out.new.items ≡ out.old.items ++ page.arc_style) }
{
    out.extend_from_slice(
        b"path{fill:none;stroke:#1f4e9e;marker-end:url(#tip)}.right{stroke-dasharray:7 2}\n",
    )?;
    out.extend_from_slice(b".write{stroke:#777}.guard{stroke:#c23b22;stroke-dasharray:2 2}\n")
}

// Writes the arcs of memory and exits, and the tiles.
#[tactic(auto, unfolding(crate::specs::Page::beside_style))]
fn put_beside_style(out: &mut Vec<u8>) -> Result<(), AllocError>
    ensures ok { OnOk result (out.new.items ≡ out.old.items ++ page.beside_style) }
{
    out.extend_from_slice(b".load,.store{stroke:#6b3fa0;stroke-dasharray:9 3 2 3}\n")?;
    out.extend_from_slice(
        b".leave{stroke:#000;stroke-width:2}.tip{fill:#333;stroke:none;marker-end:none}\n",
    )?;
    out.extend_from_slice(b".tiles{fill:#f6f6f6;stroke:#bbb;marker-end:none}</style>\n")
}

// Writes the tip of an arc.
#[tactic(auto, unfolding(crate::specs::Page::tip))]
fn put_tip(out: &mut Vec<u8>) -> Result<(), AllocError>
    ensures ok { OnOk result (out.new.items ≡ out.old.items ++ page.tip) }
{
    out.extend_from_slice(
        b"<marker id='tip' viewBox='0 0 8 8' refX='8' refY='4' markerWidth='8' ",
    )?;
    out.extend_from_slice(b"markerHeight='8' orient='auto' markerUnits='userSpaceOnUse'>")?;
    out.extend_from_slice(b"<path class='tip' d='M0 1L8 4L0 7z'/></marker>\n")
}

// Writes the upper two rows of tiles.
#[tactic(auto, unfolding(crate::specs::Page::upper_tiles))]
fn put_upper_tiles(out: &mut Vec<u8>) -> Result<(), AllocError>
    ensures ok { OnOk result (out.new.items ≡ out.old.items ++ page.upper_tiles) }
{
    out.extend_from_slice(b"<path class='tiles' d='M150 150h220v190h-220zM380 150h220v190h-220z")?;
    out.extend_from_slice(b"M610 150h220v190h-220zM840 150h220v190h-220zM150 350h220v190h-220z")?;
    out.extend_from_slice(b"M380 350h220v190h-220zM610 350h220v190h-220zM840 350h220v190h-220z")
}

// Writes the lower two.
#[tactic(auto, unfolding(crate::specs::Page::lower_tiles))]
fn put_lower_tiles(out: &mut Vec<u8>) -> Result<(), AllocError>
    ensures ok { OnOk result (out.new.items ≡ out.old.items ++ page.lower_tiles) }
{
    out.extend_from_slice(b"M150 550h220v190h-220zM380 550h220v190h-220zM610 550h220v190h-220z")?;
    out.extend_from_slice(b"M840 550h220v190h-220zM150 750h220v190h-220zM380 750h220v190h-220z")?;
    out.extend_from_slice(b"M610 750h220v190h-220zM840 750h220v190h-220z'/>\n")
}

// Writes how all parts look.
#[tactic(auto, unfolding(crate::specs::Page::style))]
fn put_style(out: &mut Vec<u8>) -> Result<(), AllocError>
    ensures ok { OnOk result (out.new.items ≡ out.old.items ++ page.style) }
{
    put_box_style(out)?;
    put_mark_style(out)?;
    put_arc_style(out)?;
    put_beside_style(out)
}

/// Writes what stands before the parts of a block.
#[tactic(auto, unfolding(crate::specs::Page::page_head))]
pub fn put_page_head(out: &mut Vec<u8>) -> Result<(), AllocError>
    ensures ok { OnOk result (out.new.items ≡ out.old.items ++ page.page_head) }
{
    put_page_size(out)?;
    put_style(out)?;
    put_tip(out)?;
    put_upper_tiles(out)?;
    put_lower_tiles(out)
}

// Writes the arcs of operands and predicates, at the lower left.
#[tactic(auto, unfolding(crate::specs::Page::operand_key))]
fn put_operand_key(out: &mut Vec<u8>) -> Result<(), AllocError>
    ensures ok { OnOk result (out.new.items ≡ out.old.items ++ page.operand_key) }
{
    out.extend_from_slice(
        b"<path class='left' d='M10 960H60'/><text x='100' y='964'>left</text>\n",
    )?;
    out.extend_from_slice(
        b"<path class='right' d='M10 980H60'/><text x='100' y='984'>right</text>\n",
    )?;
    out.extend_from_slice(
        b"<path class='guard' d='M10 1000H60'/><text x='100' y='1004'>predicate</text>\n",
    )
}

// Writes the other arcs.
#[tactic(auto, unfolding(crate::specs::Page::beside_key))]
fn put_beside_key(out: &mut Vec<u8>) -> Result<(), AllocError>
    ensures ok { OnOk result (out.new.items ≡ out.old.items ++ page.beside_key) }
{
    out.extend_from_slice(
        b"<path class='load' d='M10 1020H60'/><text x='100' y='1024'>memory</text>\n",
    )?;
    out.extend_from_slice(
        b"<path class='write' d='M10 1040H60'/><text x='100' y='1044'>write</text>\n",
    )?;
    out.extend_from_slice(
        b"<path class='leave' d='M10 1060H60'/><text x='100' y='1064'>exit</text>\n",
    )
}

// Writes the box of what fires on true, at the lower right.
#[tactic(auto, unfolding(crate::specs::Page::true_key))]
fn put_true_key(out: &mut Vec<u8>) -> Result<(), AllocError>
    ensures ok { OnOk result (out.new.items ≡ out.old.items ++ page.true_key) }
{
    out.extend_from_slice(b"<rect class='yes' x='1090' y='970' width='40' height='20'/>")?;
    out.extend_from_slice(
        b"<circle class='on' cx='1090' cy='980' r='4'/><text x='1170' y='984'>on true</text>\n",
    )
}

// Writes that of what fires on false.
#[tactic(auto, unfolding(crate::specs::Page::false_key))]
fn put_false_key(out: &mut Vec<u8>) -> Result<(), AllocError>
    ensures ok { OnOk result (out.new.items ≡ out.old.items ++ page.false_key) }
{
    out.extend_from_slice(b"<rect class='no' x='1090' y='1000' width='40' height='20'/>")?;
    out.extend_from_slice(
        b"<circle class='off' cx='1090' cy='1010' r='4'/><text x='1170' y='1014'>on false</text>\n",
    )
}

// Writes that of what gives the null token.
#[tactic(auto, unfolding(crate::specs::Page::null_key))]
fn put_null_key(out: &mut Vec<u8>) -> Result<(), AllocError>
    ensures ok { OnOk result (out.new.items ≡ out.old.items ++ page.null_key) }
{
    out.extend_from_slice(
        b"<rect x='1090' y='1030' width='40' height='20'/><rect class='null' x='1092' y='1032' ",
    )?;
    out.extend_from_slice(b"width='36' height='16' rx='8'/><text x='1170' y='1044'>null</text>\n")
}

// Writes the end of the page.
#[tactic(auto, unfolding(crate::specs::Page::page_end))]
fn put_page_end(out: &mut Vec<u8>) -> Result<(), AllocError>
    ensures ok { OnOk result (out.new.items ≡ out.old.items ++ page.page_end) }
{
    out.extend_from_slice(b"</svg>\n")
}

/// Writes what stands behind them.
#[tactic(auto, unfolding(crate::specs::Page::page_foot))]
pub fn put_page_foot(out: &mut Vec<u8>) -> Result<(), AllocError>
    ensures ok { OnOk result (out.new.items ≡ out.old.items ++ page.page_foot) }
{
    put_operand_key(out)?;
    put_beside_key(out)?;
    put_true_key(out)?;
    put_false_key(out)?;
    put_null_key(out)?;
    put_page_end(out)
}
