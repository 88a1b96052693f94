//! The style sheet: the colours of tones, on a light and on a dark page, and how shapes of each kind look.
//!
//! Who holds what is told by colours that people who don't tell red from green tell apart (M. Okabe and K. Ito, Color Universal Design).

ghost use Rattle.std.specs.Prelude.{◌≡◌, ◌++◌, OnOk};
ghost use Rattle.nm_picture_svg.specs.Style as spec;

use crate::xml::put;
use nm_base::NoMemory;

#[tactic(auto, unfolding(crate::specs::Style::first_of_light))]
fn first_of_light() -> &'static str
    ensures { result.now ≡ spec.first_of_light }
{
    "svg{--bg:#fff;--ink:#1c2430;--soft:#5b6675;--line:#c3cad5;--card:#eef2f8;--ask:#1f4f9e;--answer:#56606e;\n"
}

#[tactic(auto, unfolding(crate::specs::Style::second_of_light))]
fn second_of_light() -> &'static str
    ensures { result.now ≡ spec.second_of_light }
{
    "--bad:#b8281c;--pending:#ead300;--manager:#0072b2;--first:#d98200;--second:#009e73;--third:#c25c95;\n"
}

#[tactic(auto, unfolding(crate::specs::Style::third_of_light))]
fn third_of_light() -> &'static str
    ensures { result.now ≡ spec.third_of_light }
{
    "--fourth:#56b4e9;--fifth:#7a5c00;background:var(--bg);font:12px system-ui,-apple-system,'Segoe UI',sans-serif}\n"
}

#[tactic(auto, unfolding(crate::specs::Style::first_of_dark))]
fn first_of_dark() -> &'static str
    ensures { result.now ≡ spec.first_of_dark }
{
    "@media(prefers-color-scheme:dark){svg{--bg:#14181f;--ink:#e6eaf0;--soft:#a0aaba;--line:#3d4655;--card:#1f2631;\n"
}

#[tactic(auto, unfolding(crate::specs::Style::second_of_dark))]
fn second_of_dark() -> &'static str
    ensures { result.now ≡ spec.second_of_dark }
{
    "--ask:#8ab6ff;--answer:#aab4c2;--bad:#ff8a7a;--pending:#d9c22e;--manager:#4aa8e8;--first:#f2ae3a;\n"
}

#[tactic(auto, unfolding(crate::specs::Style::third_of_dark))]
fn third_of_dark() -> &'static str
    ensures { result.now ≡ spec.third_of_dark }
{
    "--second:#2fc79b;--third:#e39ac4;--fourth:#9ad4f7;--fifth:#c9a94a}}\n"
}

#[tactic(auto, unfolding(crate::specs::Style::first_of_tones))]
fn first_of_tones() -> &'static str
    ensures { result.now ≡ spec.first_of_tones }
{
    ".plain,.title,.heading,.entry,.decided,.changed{--c:var(--ink)}.soft,.rule{--c:var(--soft)}.lane{--c:var(--line)}\n"
}

#[tactic(auto, unfolding(crate::specs::Style::second_of_tones))]
fn second_of_tones() -> &'static str
    ensures { result.now ≡ spec.second_of_tones }
{
    ".ask{--c:var(--ask)}.answer{--c:var(--answer)}.refused,.alarm{--c:var(--bad)}.on-alarm{--c:var(--bg)}\n"
}

#[tactic(auto, unfolding(crate::specs::Style::third_of_tones))]
fn third_of_tones() -> &'static str
    ensures { result.now ≡ spec.third_of_tones }
{
    ".pending{--c:var(--pending)}.manager{--c:var(--manager)}.first{--c:var(--first)}.second{--c:var(--second)}\n"
}

#[tactic(auto, unfolding(crate::specs::Style::fourth_of_tones))]
fn fourth_of_tones() -> &'static str
    ensures { result.now ≡ spec.fourth_of_tones }
{
    ".third{--c:var(--third)}.fourth{--c:var(--fourth)}.fifth{--c:var(--fifth)}\n"
}

#[tactic(auto, unfolding(crate::specs::Style::first_of_outlines))]
fn first_of_outlines() -> &'static str
    ensures { result.now ≡ spec.first_of_outlines }
{
    "line{stroke:var(--c);stroke-width:1.2}.lane{stroke-width:1.5}.rule{stroke-dasharray:2 4}.dashed{stroke-dasharray:4 3}\n"
}

#[tactic(auto, unfolding(crate::specs::Style::second_of_outlines))]
fn second_of_outlines() -> &'static str
    ensures { result.now ≡ spec.second_of_outlines }
{
    "path,rect,circle{fill:var(--c)}.hollow{fill:var(--bg);stroke:var(--c);stroke-width:1.4}\n"
}

#[tactic(auto, unfolding(crate::specs::Style::third_of_outlines))]
fn third_of_outlines() -> &'static str
    ensures { result.now ≡ spec.third_of_outlines }
{
    ".sign,.cross{fill:none;stroke:var(--c);stroke-width:2;stroke-linecap:round}.sign{fill:var(--bg)}\n"
}

#[tactic(auto, unfolding(crate::specs::Style::fourth_of_outlines))]
fn fourth_of_outlines() -> &'static str
    ensures { result.now ≡ spec.fourth_of_outlines }
{
    "circle.changed{fill:var(--bg);stroke:var(--c);stroke-width:2}rect.entry,rect.decided{fill:var(--card);stroke:var(--line)}\n"
}

#[tactic(auto, unfolding(crate::specs::Style::fifth_of_outlines))]
fn fifth_of_outlines() -> &'static str
    ensures { result.now ≡ spec.fifth_of_outlines }
{
    "rect.decided{stroke:var(--c);stroke-width:1.8}\n"
}

#[tactic(auto, unfolding(crate::specs::Style::first_of_letters))]
fn first_of_letters() -> &'static str
    ensures { result.now ≡ spec.first_of_letters }
{
    "text{fill:var(--c);stroke:var(--bg);stroke-width:3px;stroke-linejoin:round;paint-order:stroke}\n"
}

#[tactic(auto, unfolding(crate::specs::Style::second_of_letters))]
fn second_of_letters() -> &'static str
    ensures { result.now ≡ spec.second_of_letters }
{
    "text.entry,text.decided,text.on-alarm{stroke:none}text.refused,text.on-alarm,text.decided{font-weight:600}\n"
}

#[tactic(auto, unfolding(crate::specs::Style::third_of_letters))]
fn third_of_letters() -> &'static str
    ensures { result.now ≡ spec.third_of_letters }
{
    "text.title{font-size:17px;font-weight:700}text.heading{font-size:13px;font-weight:700}\n"
}

#[tactic(auto, unfolding(crate::specs::Style::fourth_of_letters))]
fn fourth_of_letters() -> &'static str
    ensures { result.now ≡ spec.fourth_of_letters }
{
    ".middle{text-anchor:middle}.end{text-anchor:end}\n"
}

// Colours on a light page.
#[tactic(auto, unfolding(crate::specs::Style::light))]
fn put_light(out: &mut Vec<u8>) -> Result<(), NoMemory>
    ensures { OnOk result (out.new.items ≡ out.old.items ++ spec.light) }
{
    put(out, first_of_light())?;
    put(out, second_of_light())?;
    put(out, third_of_light())
}

// Colours on a dark page.
#[tactic(auto, unfolding(crate::specs::Style::dark))]
fn put_dark(out: &mut Vec<u8>) -> Result<(), NoMemory>
    ensures { OnOk result (out.new.items ≡ out.old.items ++ spec.dark) }
{
    put(out, first_of_dark())?;
    put(out, second_of_dark())?;
    put(out, third_of_dark())
}

// The colour of each tone.
#[tactic(auto, unfolding(crate::specs::Style::tones))]
fn put_tones(out: &mut Vec<u8>) -> Result<(), NoMemory>
    ensures { OnOk result (out.new.items ≡ out.old.items ++ spec.tones) }
{
    put(out, first_of_tones())?;
    put(out, second_of_tones())?;
    put(out, third_of_tones())?;
    put(out, fourth_of_tones())
}

// How lines, boxes and signs look.
#[tactic(auto, unfolding(crate::specs::Style::outlines))]
fn put_outlines(out: &mut Vec<u8>) -> Result<(), NoMemory>
    ensures { OnOk result (out.new.items ≡ out.old.items ++ spec.outlines) }
{
    put(out, first_of_outlines())?;
    put(out, second_of_outlines())?;
    put(out, third_of_outlines())?;
    put(out, fourth_of_outlines())?;
    put(out, fifth_of_outlines())
}

// How words look.
#[tactic(auto, unfolding(crate::specs::Style::letters))]
fn put_letters(out: &mut Vec<u8>) -> Result<(), NoMemory>
    ensures { OnOk result (out.new.items ≡ out.old.items ++ spec.letters) }
{
    put(out, first_of_letters())?;
    put(out, second_of_letters())?;
    put(out, third_of_letters())?;
    put(out, fourth_of_letters())
}

/// Appends the style sheet.
#[tactic(auto, unfolding(crate::specs::Style::style))]
pub fn put_style(out: &mut Vec<u8>) -> Result<(), NoMemory>
    ensures { OnOk result (out.new.items ≡ out.old.items ++ spec.style) }
{
    put_light(out)?;
    put_dark(out)?;
    put_tones(out)?;
    put_outlines(out)?;
    put_letters(out)
}
