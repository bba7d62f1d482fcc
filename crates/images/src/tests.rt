// The image of A (2 3), B (3 2) and C (2 2), as it lies, and what opening refuses.
use super::filling::filled;
use super::image::Image;
use elements::metres::Metres;
use refusals::refusal::Refusal;
use shapes::declaration::Declaration;
use shapes::table::Table;
use std::alloc::{AllocError, Global};
use std::test::Fail;
use stores::store::Store;

const TABLES: [Declaration; 3] = [
    Declaration {
        rank: 2,
        extents: [2, 3, 0, 0],
    },
    Declaration {
        rank: 2,
        extents: [3, 2, 0, 0],
    },
    Declaration {
        rank: 2,
        extents: [2, 2, 0, 0],
    },
];

// Kind 1, three variables, and the pairs (28, 48), (76, 48), (124, 32).
const HEADER: [u8; 28] = [
    1, 3, 0, 0, 0, 0, 0, 28, 0, 0, 0, 48, 0, 0, 0, 76, 0, 0, 0, 48, 0, 0, 0, 124, 0, 0, 0, 32,
];

// The header and so many bytes after it.
fn buffer(heap: Global, more: usize) -> Result<Vec<u8>, AllocError> {
    let mut bytes = Vec::from_slice(heap, &HEADER)?;
    for _ in 0..more {
        bytes.push(0)?;
    }
    Ok(bytes)
}

// The refusal of a buffer, if it is refused.
fn refused(bytes: Vec<u8>) -> Option<Refusal> {
    let opened: Result<Image<Metres>, _> = Image::open(&TABLES, bytes);
    match opened {
        Ok(_) => None,
        Err(declined) => Some(declined.refusal),
    }
}

#[test]
fn buffers_are_judged(rt: HostRuntime) -> Result<(), Fail> {
    assert_eq!(rt; refused(buffer(rt.alloc(), 128)?), None);
    assert_eq!(rt;
        refused(buffer(rt.alloc(), 127)?),
        Some(Refusal::BadPair(3))
    );
    assert_eq!(rt; refused(Vec::new(rt.alloc())), Some(Refusal::BadHeader));
    let mut other = buffer(rt.alloc(), 128)?;
    assert!(rt; other.len() == 156);
    other[3] = 1;
    assert_eq!(rt; refused(other), Some(Refusal::BadHeader));
    let mut code = buffer(rt.alloc(), 128)?;
    assert!(rt; code.len() == 156);
    code[76] = 1;
    assert_eq!(rt; refused(code), Some(Refusal::BadCode(7)));
    Ok(())
}

#[test]
fn a_write_sets_eight_bytes(rt: HostRuntime) -> Result<(), Fail> {
    let Ok(mut image) = Image::<Metres>::open(&TABLES, buffer(rt.alloc(), 128)?) else {
        return Err(Fail::new("not opened"));
    };
    assert_eq!(rt; image.write(1, &[1, 2], Metres::of(5)), Ok(()));
    assert_eq!(rt; image.read(1, &[1, 2]), Ok(Metres::of(5)));
    assert_eq!(rt; image.read(1, &[2, 1]), Ok(Metres::of(i64::MAX)));
    let bytes = image.close();
    assert!(rt; bytes.len() == 156);
    assert!(rt; bytes[44] == 0 && bytes[48] == 0x80 && bytes[51] == 5 && bytes[52] == 0);
    Ok(())
}

#[test]
fn an_image_is_filled(rt: HostRuntime) -> Result<(), Fail> {
    let Ok(table) = Table::try_from(TABLES.as_slice()) else {
        return Err(Fail::new("no table"));
    };
    let bytes = filled(rt.alloc(), &table, Metres::of(7))?;
    assert!(rt; bytes.len() == 156);
    assert_eq!(rt; &bytes[..28], HEADER.as_slice());
    let Ok(image) = Image::<Metres>::open(&TABLES, bytes) else {
        return Err(Fail::new("not opened"));
    };
    assert_eq!(rt; image.read(1, &[1, 1]), Ok(Metres::of(7)));
    assert_eq!(rt; image.read(3, &[2, 2]), Ok(Metres::of(7)));
    Ok(())
}
