//! DVI files that are listed, painted and asked for their fonts.

use crate::samples::{NESTED, TINY};
use boxglue_calls::status::{ACCEPTED, BUFFER_TOO_SMALL, NO_SUCH_PAGE, OUT_OF_RANGE, REFUSED};
use boxglue_calls::{
    DviFont, DviMark, DviPage, Font, FontSizes, MarkSizes, fonts, list, marks, paint, paint_bits,
};

/// The font of the file.
const FONT: Font<'static> = Font {
    name: b"tiny",
    bytes: &TINY,
};

#[test]
fn a_file_is_listed(rt: HostRuntime) {
    let mut text = [0u8; 512];
    let mut size = 0;
    assert_eq!(rt;
        list(rt.alloc(), &NESTED, &[FONT], &mut text, &mut size),
        ACCEPTED
    );
    assert_eq!(rt; text.get(..6), Some(b"page 1".as_slice()));
    assert_eq!(rt;
        list(rt.alloc(), &NESTED, &[FONT], &mut [], &mut size),
        BUFFER_TOO_SMALL
    );
}

#[test]
fn a_file_without_its_font_is_refused(rt: HostRuntime) {
    let mut text = [0u8; 512];
    let mut size = 0;
    assert_eq!(rt;
        list(rt.alloc(), &NESTED, &[], &mut text, &mut size),
        REFUSED
    );
    assert_eq!(rt; text.get(..size), Some(b"refused 4 NoFont\n".as_slice()));
}

/// Paints a page of the file at these pixels an inch, this wide and one pixel high: the status, and how many bytes the bitmap has.
fn paint_page(rt: &HostRuntime, page: u32, dpi: u32, width: u32) -> (u32, usize) {
    let mut text = [0u8; 512];
    let mut size = 0;
    let status = paint(
        rt.alloc(),
        &NESTED,
        &[FONT],
        page,
        dpi,
        width,
        1,
        &mut text,
        &mut size,
    );
    (status, size)
}

#[test]
fn a_page_is_painted(rt: HostRuntime) {
    assert_eq!(rt; paint_page(&rt, 1, 72, 3), (ACCEPTED, 11));
    assert_eq!(rt; paint_page(&rt, 2, 72, 3), (NO_SUCH_PAGE, 0));
    assert_eq!(rt; paint_page(&rt, 0, 72, 3), (OUT_OF_RANGE, 0));
    assert_eq!(rt; paint_page(&rt, 1, 0, 3), (OUT_OF_RANGE, 0));
    assert_eq!(rt; paint_page(&rt, 1, 10_001, 3), (OUT_OF_RANGE, 0));
    assert_eq!(rt; paint_page(&rt, 1, 72, 10_001), (OUT_OF_RANGE, 0));
}

#[test]
fn a_page_is_painted_in_bits(rt: HostRuntime) {
    let mut bits = [255u8; 4];
    let mut size = 0;
    assert_eq!(rt;
        paint_bits(
            rt.alloc(),
            &NESTED,
            &[FONT],
            1,
            72,
            9,
            2,
            &mut bits,
            &mut size
        ),
        ACCEPTED
    );
    assert_eq!(rt; size, 4);
    assert_eq!(rt; bits.as_slice(), [0, 0, 0, 0].as_slice());
}

#[test]
fn the_fonts_of_a_file(rt: HostRuntime) {
    let none = DviFont {
        number: -1,
        size: 0,
        design_size: 0,
        check_sum: 0,
        name_start: 0,
        name_size: 0,
    };
    let mut rows = [none; 3];
    let mut text = [0u8; 9];
    let mut sizes = FontSizes { fonts: 0, text: 0 };
    let status = fonts(rt.alloc(), &NESTED, &mut rows, &mut text, &mut sizes);
    assert_eq!(rt; status, ACCEPTED);
    let second = DviFont {
        number: 1,
        size: 1_310_720,
        design_size: 655_360,
        check_sum: 0,
        name_start: 4,
        name_size: 4,
    };
    assert_eq!(rt; rows.get(1), Some(&second));
    assert_eq!(rt; rows.get(2), Some(&none));
    assert_eq!(rt; text.as_slice(), b"tinytiny\0".as_slice());
    assert_eq!(rt;
        fonts(rt.alloc(), &NESTED, &mut rows, &mut [], &mut sizes),
        BUFFER_TOO_SMALL
    );
    assert_eq!(rt; sizes.text, 8);
}

/// A mark of zeros.
const NO_MARK: DviMark = DviMark {
    kind: 0,
    font: 0,
    code: 0,
    h: 0,
    v: 0,
    height: 0,
    width: 0,
    text_size: 0,
    text_start: 0,
};

/// The sizes before a call.
const NO_SIZES: MarkSizes = MarkSizes {
    pages: 0,
    marks: 0,
    text: 0,
    num: 0,
    den: 0,
    mag: 0,
};

#[test]
fn the_marks_of_a_file(rt: HostRuntime) {
    let mut pages = [DviPage {
        counts: [9; 10],
        first_mark: 9,
        marks: 9,
    }];
    let mut rows = [NO_MARK; 4];
    let mut sizes = NO_SIZES;
    let status = marks(
        rt.alloc(),
        &NESTED,
        &[FONT],
        &mut pages,
        &mut rows,
        &mut [],
        &mut sizes,
    );
    assert_eq!(rt; status, ACCEPTED);
    let page = DviPage {
        counts: [0; 10],
        first_mark: 0,
        marks: 3,
    };
    assert_eq!(rt; pages[0], page);
    let second = DviMark {
        kind: 1,
        font: 1,
        code: 98,
        h: 327_680,
        v: 655_360,
        width: 655_360,
        ..NO_MARK
    };
    assert_eq!(rt; rows[1], second);
    assert_eq!(rt; rows[3], NO_MARK);
    let wanted = MarkSizes {
        pages: 1,
        marks: 3,
        text: 0,
        num: 25_400_000,
        den: 473_628_672,
        mag: 1000,
    };
    assert_eq!(rt; sizes, wanted);
}

#[test]
fn the_marks_of_a_refused_file(rt: HostRuntime) {
    let mut text = [0u8; 64];
    let mut sizes = NO_SIZES;
    let status = marks(
        rt.alloc(),
        &NESTED,
        &[],
        &mut [],
        &mut [],
        &mut text,
        &mut sizes,
    );
    assert_eq!(rt; status, REFUSED);
    assert_eq!(rt;
        text.get(..sizes.text),
        Some(b"refused 4 NoFont\n".as_slice())
    );
    assert_eq!(rt; (sizes.pages, sizes.marks), (0, 0));
}

#[test]
fn too_few_rows_for_marks_stay_as_they_were(rt: HostRuntime) {
    let mut rows = [NO_MARK; 2];
    let mut sizes = NO_SIZES;
    let status = marks(
        rt.alloc(),
        &NESTED,
        &[FONT],
        &mut [],
        &mut rows,
        &mut [],
        &mut sizes,
    );
    assert_eq!(rt; status, BUFFER_TOO_SMALL);
    assert_eq!(rt; rows, [NO_MARK; 2]);
    assert_eq!(rt; (sizes.pages, sizes.marks), (1, 3));
}
