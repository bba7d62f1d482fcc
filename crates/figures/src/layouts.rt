// The figures of a kind of element over each layout.
use super::report::{Figures, print_figures};
use elements::kind::Kind;
use padding::layer;
use samples::layouts::{cells, image};
use samples::tables::{WIDE_WITH_SCALAR, WITH_SCALAR};
use std::fmt;
use stores::store::Store;

// Over padding with vector length 4 on top of a store.
fn print_padded<K: Kind + fmt::Display, S: Store<Item = K> + Drop>(
    rt: &HostRuntime,
    figures: &Figures<K>,
    layout: &str,
    below: S,
) -> anyhow::Result<()> {
    let mut padding = layer::open(&WITH_SCALAR, 4, below).map_err(|declined| declined.refusal)?;
    print_figures(rt, figures, layout, &mut padding, 4)
}

// Cells hold the filler before, and images the undefined element.
pub(super) fn print_over_all<K: Kind + fmt::Display>(
    rt: &HostRuntime,
    figures: &Figures<K>,
) -> anyhow::Result<()> {
    let (heap, filler, none) = (rt.alloc(), figures.filler, K::undefined());
    print_figures(
        rt,
        figures,
        "cells",
        &mut cells(heap, &WITH_SCALAR, filler)?,
        2,
    )?;
    print_figures(
        rt,
        figures,
        "image",
        &mut image(heap, &WITH_SCALAR, none)?,
        2,
    )?;
    print_padded(
        rt,
        figures,
        "pad4-cells",
        cells(heap, &WIDE_WITH_SCALAR, filler)?,
    )?;
    print_padded(
        rt,
        figures,
        "pad4-image",
        image(heap, &WIDE_WITH_SCALAR, none)?,
    )
}
