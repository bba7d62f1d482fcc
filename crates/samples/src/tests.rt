// Stores that hold one element everywhere.
use super::layouts::{cells, image};
use super::tables::WITH_SCALAR;
use elements::legs::Legs;
use std::test::Fail;
use stores::store::Store;

#[test]
fn every_place_holds_the_element(rt: HostRuntime) -> Result<(), Fail> {
    let Ok(cells) = cells(rt.alloc(), &WITH_SCALAR, Legs::of(7)) else {
        return Err(Fail::new("no cells"));
    };
    let Ok(image) = image(rt.alloc(), &WITH_SCALAR, Legs::of(7)) else {
        return Err(Fail::new("no image"));
    };
    assert_eq!(rt; cells.read(2, &[3, 2]), Ok(Legs::of(7)));
    assert_eq!(rt; cells.read(4, &[]), Ok(Legs::of(7)));
    assert_eq!(rt; image.read(1, &[1, 1]), Ok(Legs::of(7)));
    assert_eq!(rt; image.read(4, &[]), Ok(Legs::of(7)));
    Ok(())
}
