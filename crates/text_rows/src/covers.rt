//! The values of a design's covers.

ghost use Rattle.std.specs.Prelude.{◌≡◌, ◌≤◌};

use crate::row_text::{show, show_bit};
use blif_read::{Design, Statement};
use sec_base::Cover;
use std::rt::HostRuntime;

/// Shows the values of the cover, and whether a copy of it has another.
fn show_values(rt: &HostRuntime, cover: &Cover, copy: &Cover)
    requires width { cover.now.width ≤ 8 }
    requires copy { copy.now ≡ cover.now }
{
    let width = cover.width() as usize;
    show(rt, b" ");
    for number in 0..1u32 << width {
        let all = [
            number / 128 % 2 == 1,
            number / 64 % 2 == 1,
            number / 32 % 2 == 1,
            number / 16 % 2 == 1,
            number / 8 % 2 == 1,
            number / 4 % 2 == 1,
            number / 2 % 2 == 1,
            number % 2 == 1,
        ];
        let bits = &all[8 - width..];
        let value = cover.value(bits);
        show_bit(rt, value);
        if copy.value(bits) != value {
            show(rt, b" and the copy another");
        }
    }
}

/// Shows the values of the cover and of a copy of it, where it has few fan-ins.
fn show_cover(rt: &HostRuntime, cover: &Cover) {
    if cover.width() > 8 {
        return show(rt, b" wide");
    }
    match cover.copy() {
        Ok(copy) => show_values(rt, cover, &copy),
        Err(_) => show(rt, b" no-memory"),
    }
}

/// Shows the values of each cover of the design, over all bits of its fan-ins, of which the first counts most.
pub(crate) fn show_covers(rt: &HostRuntime, design: &Design) {
    for model in design.models.as_slice() {
        for statement in model.statements.as_slice() {
            if let Statement::Names { cover, .. } = statement {
                show_cover(rt, cover);
            }
        }
    }
}
