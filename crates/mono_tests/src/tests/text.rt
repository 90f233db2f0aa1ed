//! Tables that were worked by hand, from the rules of lines, tokens and numbers.
use super::assert_same;
use mono_text::{
    FieldRefusal, Line, Lines, NumberRefusal, fields, natural, push_natural, push_signed, signed,
};
use std::alloc::{AllocError, Global};

/// The token in brackets.
fn push_token(out: &mut Vec<u8>, token: &[u8]) -> Result<(), AllocError> {
    out.push(b'[')?;
    out.extend_from_slice(token)?;
    out.push(b']')?;
    Ok(())
}

/// The line's number, `=`, its bytes, its tokens in brackets, and `;`.
fn push_line(out: &mut Vec<u8>, line: &Line<'_>) -> Result<(), AllocError> {
    push_natural(out, line.number)?;
    out.push(b'=')?;
    out.extend_from_slice(line.text)?;
    for token in line.tokens() {
        push_token(out, token)?;
    }
    out.push(b';')?;
    Ok(())
}

/// Each line as `push_line` shows it.
fn shown(alloc: Global, text: &[u8]) -> Result<Vec<u8>, AllocError> {
    let mut out = Vec::new(alloc);
    for line in Lines::new(text) {
        push_line(&mut out, &line)?;
    }
    Ok(out)
}

#[test]
fn lines_and_tokens(rt: HostRuntime) -> Result<(), AllocError> {
    let table: [(&[u8], &[u8]); 13] = [
        (b"", b""),
        (b"\n", b"1=;"),
        (b"a", b"1=a[a];"),
        (b"a\n", b"1=a[a];"),
        (b"a\n\n", b"1=a[a];2=;"),
        (b"\n\na", b"1=;2=;3=a[a];"),
        (b"a\r\nb\r", b"1=a\r[a];2=b\r[b];"),
        (b" \t\r", b"1= \t\r;"),
        (b"\t1 -2  0\n ", b"1=\t1 -2  0[1][-2][0];2= ;"),
        (b"x\x0by\x0cz w", b"1=x\x0by\x0cz w[x\x0by\x0cz][w];"),
        (
            b"\x00 \x7f\xff\x80",
            b"1=\x00 \x7f\xff\x80[\x00][\x7f\xff\x80];",
        ),
        (b"a\rb", b"1=a\rb[a][b];"),
        (
            b"1\n2\n3\n4\n5\n6\n7\n8\n9\n0",
            b"1=1[1];2=2[2];3=3[3];4=4[4];5=5[5];6=6[6];7=7[7];8=8[8];9=9[9];10=0[0];",
        ),
    ];
    for (text, want) in table {
        let got = shown(rt.alloc(), text)?;
        assert_same(&rt, got.as_slice(), want);
    }
    Ok(())
}

#[test]
fn naturals(rt: HostRuntime) {
    let most = u64::MAX;
    let table: [(&[u8], u64, Result<u64, NumberRefusal>); 23] = [
        (b"", most, Err(NumberRefusal::NotNumber)),
        (b"0", 0, Ok(0)),
        (b"1", 0, Err(NumberRefusal::TooLarge)),
        (b"007", 7, Ok(7)),
        (b"000", 0, Ok(0)),
        (b"7", 6, Err(NumberRefusal::TooLarge)),
        (b"+1", 9, Err(NumberRefusal::NotNumber)),
        (b"-", 9, Err(NumberRefusal::NotNumber)),
        (b"-0", 9, Err(NumberRefusal::NotNumber)),
        (b"--1", 9, Err(NumberRefusal::NotNumber)),
        (b"1x", 9, Err(NumberRefusal::NotNumber)),
        (b"x1", 9, Err(NumberRefusal::NotNumber)),
        (b"1.0", 9, Err(NumberRefusal::NotNumber)),
        (b"/", 9, Err(NumberRefusal::NotNumber)),
        (b":", 9, Err(NumberRefusal::NotNumber)),
        (b"\xb1", 9, Err(NumberRefusal::NotNumber)),
        (b"1000000", 1_000_000, Ok(1_000_000)),
        (b"1000001", 1_000_000, Err(NumberRefusal::TooLarge)),
        (b"18446744073709551615", most, Ok(most)),
        (b"18446744073709551616", most, Err(NumberRefusal::TooLarge)),
        (b"0000018446744073709551615", most, Ok(most)),
        (
            b"1234567890123456789012345678901234567890",
            most,
            Err(NumberRefusal::TooLarge),
        ),
        (
            b"123456789012345678901234567890123456789x",
            most,
            Err(NumberRefusal::NotNumber),
        ),
    ];
    for (token, limit, want) in table {
        assert_same(&rt, natural(token, limit), want);
    }
}

#[test]
fn signed_numbers(rt: HostRuntime) {
    let most = 1u64 << 62;
    let table: [(&[u8], u64, Result<i64, NumberRefusal>); 16] = [
        (b"", most, Err(NumberRefusal::NotNumber)),
        (b"-", most, Err(NumberRefusal::NotNumber)),
        (b"--1", most, Err(NumberRefusal::NotNumber)),
        (b"+1", most, Err(NumberRefusal::NotNumber)),
        (b"-+1", most, Err(NumberRefusal::NotNumber)),
        (b"1-", most, Err(NumberRefusal::NotNumber)),
        (b"0", 0, Ok(0)),
        (b"-0", 0, Ok(0)),
        (b"-007", 7, Ok(-7)),
        (b"-8", 7, Err(NumberRefusal::TooLarge)),
        (b"8", 7, Err(NumberRefusal::TooLarge)),
        (b"4611686018427387904", most, Ok(4_611_686_018_427_387_904)),
        (
            b"-4611686018427387904",
            most,
            Ok(-4_611_686_018_427_387_904),
        ),
        (b"4611686018427387905", most, Err(NumberRefusal::TooLarge)),
        (b"-4611686018427387905", most, Err(NumberRefusal::TooLarge)),
        (
            b"-1234567890123456789012345678901234567890",
            most,
            Err(NumberRefusal::TooLarge),
        ),
    ];
    for (token, limit, want) in table {
        assert_same(&rt, signed(token, limit), want);
    }
}

#[test]
fn long_numbers(rt: HostRuntime) -> Result<(), AllocError> {
    let mut token = Vec::from_elem(rt.alloc(), b'0', 5000)?;
    token.push(b'7')?;
    assert_same(&rt, natural(&token, 7), Ok(7));
    assert_same(&rt, natural(&token, 6), Err(NumberRefusal::TooLarge));
    assert_same(&rt, signed(&token, 7), Ok(7));
    token.push(b'x')?;
    assert_same(&rt, natural(&token, 7), Err(NumberRefusal::NotNumber));
    Ok(())
}

fn line_of(text: &[u8]) -> Line<'_> {
    Line { number: 1, text }
}

#[test]
fn fields_of_lines(rt: HostRuntime) {
    let pairs: [(&[u8], Result<[u64; 2], FieldRefusal>); 9] = [
        (b"5 9", Ok([5, 9])),
        (b"5\t009\r", Ok([5, 9])),
        (b"5", Err(FieldRefusal::Count)),
        (b"x 9 9", Err(FieldRefusal::Count)),
        (b"", Err(FieldRefusal::Count)),
        (b"6 x", Err(FieldRefusal::TooLarge(0))),
        (b"x 10", Err(FieldRefusal::NotNumber(0))),
        (b"5 10", Err(FieldRefusal::TooLarge(1))),
        (b"5 -9", Err(FieldRefusal::NotNumber(1))),
    ];
    for (text, want) in pairs {
        assert_same(&rt, fields(&line_of(text), 0, &[5, 9]), want);
    }
    assert_same(&rt, fields(&line_of(b"a 5 09"), 1, &[5, 9]), Ok([5, 9]));
    assert_same(&rt, fields(&line_of(b" "), 0, &[]), Ok([]));
    assert_same(
        &rt,
        fields(&line_of(b"a"), 0, &[]),
        Err(FieldRefusal::Count),
    );
}

#[test]
fn numbers_of_tokens(rt: HostRuntime) {
    let line = line_of(b" 12\t-7 99999999999999999 100000000000000000 18446744073709551616 1x 4");
    let mut tokens = line.tokens();
    assert_same(&rt, tokens.left(), 7);
    assert_same(&rt, tokens.first_byte(), Some(b'1'));
    assert_same(&rt, tokens.next_natural(12), Some(Ok(12)));
    assert_same(
        &rt,
        tokens.next_signed(6),
        Some(Err(NumberRefusal::TooLarge)),
    );
    assert_same(
        &rt,
        tokens.next_signed(1 << 62),
        Some(Ok(99_999_999_999_999_999)),
    );
    assert_same(
        &rt,
        tokens.next_natural(u64::MAX),
        Some(Ok(100_000_000_000_000_000)),
    );
    assert_same(
        &rt,
        tokens.next_natural(u64::MAX),
        Some(Err(NumberRefusal::TooLarge)),
    );
    assert_same(
        &rt,
        tokens.next_signed(9),
        Some(Err(NumberRefusal::NotNumber)),
    );
    assert_same(&rt, tokens.next_signed(9), Some(Ok(4)));
    assert_same(&rt, tokens.first_byte(), None);
    assert_same(&rt, tokens.next_natural(9), None);
}

/// Numbers without and with a sign, each with a blank behind it.
fn push_numbers(out: &mut Vec<u8>) -> Result<(), AllocError> {
    for n in [0, 9, 10, u64::MAX] {
        push_natural(out, n)?;
        out.push(b' ')?;
    }
    for n in [0, -1, 10, i64::MAX, i64::MIN] {
        push_signed(out, n)?;
        out.push(b' ')?;
    }
    Ok(())
}

#[test]
fn numbers_are_written(rt: HostRuntime) -> Result<(), AllocError> {
    let mut out = Vec::new(rt.alloc());
    push_numbers(&mut out)?;
    let want = b"0 9 10 18446744073709551615 0 -1 10 9223372036854775807 -9223372036854775808 ";
    assert_same(&rt, out.as_slice(), want.as_slice());
    Ok(())
}

#[test]
fn skipped_lines(rt: HostRuntime) {
    let table: [(&[u8], bool); 8] = [
        (b"", true),
        (b" \t\r", true),
        (b"c", true),
        (b"\tc 1 0", true),
        (b"c\r", true),
        (b"cnf", false),
        (b"C", false),
        (b"1 c", false),
    ];
    for (text, want) in table {
        assert_same(&rt, line_of(text).is_skipped(), want);
    }
}

/// A line of a million blanks before its one token.
#[test]
fn many_blanks(rt: HostRuntime) -> Result<(), AllocError> {
    let mut text = Vec::from_elem(rt.alloc(), b' ', 1_000_000)?;
    text.push(b'x')?;
    let line = line_of(&text);
    assert_same(&rt, line.tokens().left(), 1);
    assert_same(&rt, line.tokens().next(), Some(b"x".as_slice()));
    Ok(())
}
