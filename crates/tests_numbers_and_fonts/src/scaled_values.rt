//! Fractions, and texts that are no dimension.

use scaled_core::{DimenFault, Ratio, parse_dimen};

#[test]
fn fractions_round_halves_away_from_zero(rt: HostRuntime) {
    for (num, den, amount, rounded) in [
        (1, 2, 1, 1),
        (-1, 2, 1, -1),
        (1, 2, -1, -1),
        (-1, 2, -1, 1),
        (1, 2, 2, 1),
        (3, 2, -1, -2),
        (1, 3, 1, 0),
        (2, 3, 1, 1),
        (-1, 3, 1, 0),
        (-2, 3, 1, -1),
        (0, 5, 7, 0),
        (10, 3, 1, 3),
        (10, 3, 2, 7),
        (10, 3, 3, 10),
        (
            i64::MIN,
            1,
            i64::MIN,
            85_070_591_730_234_615_865_843_651_857_942_052_864,
        ),
        (
            i64::MAX,
            2,
            i64::MAX,
            42_535_295_865_117_307_923_698_453_892_116_250_625,
        ),
        (i64::MIN, i64::MAX, i64::MAX, -9_223_372_036_854_775_808),
        (1, i64::MAX, i64::MIN, -1),
    ] {
        let ratio = Ratio::new(num, den);
        assert_eq!(rt;
            ratio.round_times(amount),
            rounded,
            "at {num}/{den} of {amount}"
        );
    }
}

#[test]
fn other_texts_are_refused(rt: HostRuntime) {
    for text in [
        "16384pt",
        "16383.999999pt",
        "-16384pt",
        "1073741824sp",
        "227in",
        "99999999999999999999999999999999999999999999999999999999999999999999999999999999pt",
    ] {
        assert_eq!(rt;
            parse_dimen(text.as_bytes()).err(),
            Some(DimenFault::TooLarge),
            "at {text}"
        );
    }
    for text in [
        "",
        "1",
        "pt",
        ".pt",
        "-.in",
        "1 pt",
        "1,5pt",
        "1.2.3pt",
        "--1pt",
        "1PT",
        "1ptx",
        "1fil",
        " 1pt",
        "9999999999999999999999999999999999999999",
    ] {
        assert_eq!(rt;
            parse_dimen(text.as_bytes()).err(),
            Some(DimenFault::NotADimension),
            "at {text}"
        );
    }
}
