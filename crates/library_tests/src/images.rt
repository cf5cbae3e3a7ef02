//! The longest image, read and written. Others are in the text of `rows`.
use page_image::{ImageFault, read_image};
use std::process::Abort;
use std::test::Fail;
use trace_model::{MAX_IMAGE, MAX_SIZE};

/// One record fills the largest page, and is read and written.
fn compare_longest(rt: &(impl Abort + AllocGlobal), given: &[u8]) -> Result<(), Fail> {
    let image = read_image(rt.alloc(), given)?;
    assert!(rt; image.size == MAX_SIZE && image.page.count() == 1);
    assert!(rt; image.page.write_image(rt.alloc(), 0)?.as_slice() == given);
    Ok(())
}

#[test]
fn the_longest_image_is_read_and_written_and_no_longer_one(rt: HostRuntime) -> Result<(), Fail> {
    let mut given = vec![in rt.alloc(); 0x5a; MAX_IMAGE]?;
    given[..24].copy_from_slice(b"\x07\0\0\0\0\0\0\0\xf0\xff\0\0\0\0\0\0\0\0\0\0\xec\xff\0\0");
    compare_longest(&rt, &given)?;
    given.push(0)?;
    assert!(rt; matches!(read_image(rt.alloc(), &given), Err(ImageFault::BadSize)));
    Ok(())
}
