//! Lines and words.

use crate::tables::tell_folded;
use dcp_types::is_name;
use std::alloc::Global;
use std::test::Fail;
use text_lines::{
    address, four_words, identity, int64, ip, is_skipped, is_utf8, lines, name, number,
    number_from, one_word, signed_number, three_words, two_words, words,
};

/// What is asked, a text, and the answer. `lines` and `words` are those of the text; of its words it is
/// told whether they are skipped, and what they are as one word, as two, three and four. `number` is the
/// text as a number, as one from 1 to 20, as one with a sign and without, and as one of 64 bits with a
/// sign. `name`, `address` and `identity` are told beside whether the text is a name, and the `ip`
/// alone. `utf8` tells whether it is UTF-8.
pub const WORDS: &str = "\
lines|one^;;two \t 2;# three^|one//two \t 2/# three^/
lines||
lines|a;b|a/b/
words|\ttwo \t 2 |[[116, 119, 111], [50]] false Err(Words) Ok(([116, 119, 111], [50])) Err(Words) Err(Words)
words| #|[[35]] true Ok([35]) Err(Words) Err(Words) Err(Words)
words|# two|[[35], [116, 119, 111]] true Err(Words) Ok(([35], [116, 119, 111])) Err(Words) Err(Words)
words|one|[[111, 110, 101]] false Ok([111, 110, 101]) Err(Words) Err(Words) Err(Words)
words|1 2 3|[[49], [50], [51]] false Err(Words) Err(Words) Ok(([49], [50], [51])) Err(Words)
words|1 2 3 4|[[49], [50], [51], [52]] false Err(Words) Err(Words) Err(Words) Ok(([49], [50], [51], [52]))
words|1 2 3 4 5|[[49], [50], [51], [52], [53]] false Err(Words) Err(Words) Err(Words) Err(Words)
number|00000000000000000018|Some(18) Ok(18) Some(18) Some(18) Ok(18)
number|000000000000000000018|None Err(BadNumber) None None Err(BadNumber)
number|20|Some(20) Ok(20) Some(20) Some(20) Ok(20)
number|21|Some(21) Err(Limit) Some(21) Some(21) Ok(21)
number||None Err(BadNumber) None None Err(BadNumber)
number|0|Some(0) Err(Limit) Some(0) Some(0) Ok(0)
number|-0018446744073709551|None Err(BadNumber) Some(-18446744073709551) None Ok(-18446744073709551)
number|-1|None Err(BadNumber) Some(-1) None Ok(-1)
number|-9223372036854775808|None Err(BadNumber) Some(-9223372036854775808) None Ok(-9223372036854775808)
number|9223372036854775808|Some(9223372036854775808) Err(Limit) Some(9223372036854775808) Some(9223372036854775808) Err(Limit)
number|18446744073709551616|Some(18446744073709551616) Err(Limit) Some(18446744073709551616) Some(18446744073709551616) Err(Limit)
number|+1|None Err(BadNumber) None None Err(BadNumber)
number|x|None Err(BadNumber) None None Err(BadNumber)
name|pump_2-b|true pump_2-b
name|2pump|false BAD_NAME
name||false BAD_NAME
name|aaaaaaaaaaaaaaaaaaaaaaaaaaaaaaaa|true aaaaaaaaaaaaaaaaaaaaaaaaaaaaaaaa
name|aaaaaaaaaaaaaaaaaaaaaaaaaaaaaaaaa|false BAD_NAME
ip|127.000.0.01|Ok(2130706433)
ip|1.2.3|Err(Why(BadNumber))
ip|1.2.3.256|Err(Why(BadNumber))
address|10.0.0.1 9000|Ok(Address { ip: 167772161, port: 9000 })
address|10.0.0.1 0|Err(Why(Limit))
address|10.0.0.1|Err(Why(Words))
address|1.2.3 9|Err(Why(BadNumber))
identity|{00000000-0000-0000-0000-00000000000A}|Ok(10)
identity|{0000000000000000000000000000000A}|Err(BadUuid)
utf8|é|true
utf8|~|false";

fn tell_lines(alloc: Global, told: &mut String, text: &[u8]) -> Result<(), Fail> {
    for line in &lines(alloc, text)? {
        tell_folded(told, str::from_utf8(line).unwrap_or("~"))?;
        told.push('/')?;
    }
    Ok(())
}

fn tell_words(alloc: Global, told: &mut String, text: &[u8]) -> Result<(), Fail> {
    let words = words(alloc, text)?;
    write!(told, "{:?} {}", words.as_slice(), is_skipped(&words))?;
    write!(told, " {:?} {:?}", one_word(&words), two_words(&words))?;
    write!(told, " {:?} {:?}", three_words(&words), four_words(&words))?;
    Ok(())
}

fn tell_number(told: &mut String, word: &[u8]) -> Result<(), Fail> {
    write!(told, "{:?} {:?}", number(word), number_from(1, 20, word))?;
    let unsigned = signed_number(false, word);
    write!(told, " {:?} {unsigned:?}", signed_number(true, word))?;
    write!(told, " {:?}", int64(word))?;
    Ok(())
}

fn tell_name(alloc: Global, told: &mut String, word: &[u8]) -> Result<(), Fail> {
    write!(told, "{}", is_name(word))?;
    match name(alloc, word) {
        Ok(name) => write!(told, " {}", name.as_str())?,
        Err(refused) => write!(told, " {refused}")?,
    }
    Ok(())
}

fn tell_address(alloc: Global, told: &mut String, text: &[u8]) -> Result<(), Fail> {
    let words = words(alloc, text)?;
    write!(told, "{:?}", address(alloc, &words))?;
    Ok(())
}

/// Appends the answer about lines or words.
pub fn tell(alloc: Global, told: &mut String, asked: &str, text: &[u8]) -> Result<(), Fail> {
    match asked {
        "lines" => tell_lines(alloc, told, text)?,
        "words" => tell_words(alloc, told, text)?,
        "number" => tell_number(told, text)?,
        "name" => tell_name(alloc, told, text)?,
        "address" => tell_address(alloc, told, text)?,
        "ip" => write!(told, "{:?}", ip(alloc, text))?,
        "identity" => write!(told, "{:?}", identity(text))?,
        _ => write!(told, "{}", is_utf8(text))?,
    }
    Ok(())
}
