//! Calls that need room, each made once with enough of it: no clause states that they succeed. And the arguments of a range, of which no
//! clause states what they are.
use crate::answer::{Answer, Token};
use crate::arguments::Serial;
use crate::items::Items;
use crate::last::Last;
use crate::lent::{Lent, Letter, Rooms};
use crate::lines::{Lines, Step};
use crate::list::List;
use crate::names::Output;
use crate::outcome::{Ran, Verdict};
use crate::reading::Reading;
use crate::{last, outcome};
use std::test::Fail;

#[test]
fn answers_grow(rt: HostRuntime) -> Result<(), Fail> {
    let mut room = [Token::Missing; 2];
    let answer = Answer::new(&mut room, 14)?.and(Token::Unknown)?;
    let wanted = [Token::Number(14), Token::Unknown];
    assert_eq!(rt; answer.as_slice(), wanted.as_slice());
    Ok(())
}

#[test]
fn answers_begin_again(rt: HostRuntime) -> Result<(), Fail> {
    let mut room = [Token::Missing; 2];
    let mut answer = Answer::new(&mut room, 14)?;
    answer.begin(0)?;
    answer.push(Token::Missing)?;
    let wanted = [Token::Number(0), Token::Missing];
    assert_eq!(rt; answer.as_slice(), wanted.as_slice());
    Ok(())
}

// Each function of a list that other crates call, with room for three elements.
#[test]
fn lists_are_filled(rt: HostRuntime) -> Result<(), Fail> {
    let mut room = [0u8; 3];
    let mut list = List::new(&mut room);
    assert_eq!(rt; list.len(), 0);
    assert_eq!(rt; list.capacity(), 3);
    list.push(5)?;
    list.extend_from_slice(&[6, 7])?;
    assert!(rt; list.push(8).is_err());
    assert!(rt; list.extend_from_slice(&[8]).is_err());
    assert!(rt; list.assign(&[1, 2, 3, 4]).is_err());
    assert_eq!(rt; list.as_slice(), [5u8, 6, 7].as_slice());
    list.truncate(2);
    assert_eq!(rt; list.as_slice(), [5u8, 6].as_slice());
    list.truncate(3);
    assert_eq!(rt; list.len(), 2);
    assert_eq!(rt; list.slice_mut(1).len(), 1);
    let all = list.slice_mut(3);
    assert_eq!(rt; all.len(), 2);
    all[1] = 9;
    assert_eq!(rt; list.as_slice(), [5u8, 9].as_slice());
    list.set(0, 8);
    list.set(2, 7);
    assert_eq!(rt; list.as_slice(), [8u8, 9].as_slice());
    list.assign(&[1, 2, 3])?;
    list.set_len(2);
    assert_eq!(rt; list.as_slice(), [1u8, 2].as_slice());
    list.set_len(3);
    assert_eq!(rt; last::list_first_mut(&mut list, 2).len(), 2);
    assert_eq!(rt; list.as_slice(), [1u8, 2, 3].as_slice());
    list.clear();
    assert_eq!(rt; list.len(), 0);
    Ok(())
}

#[test]
fn outputs_on_the_heap_are_lent(rt: HostRuntime) -> Result<(), Fail> {
    let mut output = Vec::from_slice(rt.alloc(), &[5u32, 6, 7])?;
    last::first_mut(&mut output, 2)[1] = 9;
    assert_eq!(rt; last::first_mut(&mut output, 0).len(), 0);
    assert_eq!(rt; last::first_mut(&mut output, 4).len(), 3);
    assert_eq!(rt; output.as_slice(), [5u32, 9, 7].as_slice());
    Ok(())
}

// Of a token whose items have several roles, nothing of one choice is left in the next.
#[test]
fn arguments_are_chosen(rt: HostRuntime) -> Result<(), Fail> {
    let rooms: Rooms<'_> = Rooms {
        x: &mut [],
        y: &mut [],
        z: &mut [],
        o: &mut [],
        i: &mut [],
        e: &mut [],
    };
    let sizes = Lent::new(rooms).sizes();
    let last = Last::new(&mut [], &mut [], &mut [], &mut []);
    let mut items = Items::new();
    let mut left = Items::new();
    let line = b"not_word 7,s:3..5,?";
    let reading = Reading::read(line, &mut items, &mut left, &last.answer)?;
    let mut arguments = reading.choice(0, sizes).unwrap();
    assert_eq!(rt; arguments.word(0), 7u64);
    assert!(rt; reading.choose(2, sizes, &mut arguments));
    assert_eq!(rt; arguments.count(0), Some(0usize));
    assert_eq!(rt; arguments.serial(Serial::First), 4u32);
    assert!(rt; reading.choose(3, sizes, &mut arguments));
    assert_eq!(rt; arguments.count(0), None);
    assert_eq!(rt; arguments.serial(Serial::First), 0u32);
    assert!(rt; !reading.choose(4, sizes, &mut arguments));
    Ok(())
}

#[test]
fn lines_are_read(rt: HostRuntime) -> Result<(), Fail> {
    let text: &[u8] = b"x 00\nfill";
    let mut window = [0; 64];
    let mut line = [0; 64];
    let mut lines = Lines::new(&mut window, &mut line, text)?;
    assert_eq!(rt; lines.step()?, Step::Part);
    assert_eq!(rt; lines.step()?, Step::Line);
    Ok(())
}

#[test]
fn requests_are_compared(rt: HostRuntime) -> Result<(), Fail> {
    let mut token = [Token::Missing];
    let mut bytes = [0; 8];
    let mut last = Last::new(&mut token, &mut bytes, &mut [], &mut []);
    let mut o = [0; 8];
    let rooms: Rooms<'_> = Rooms {
        x: &mut [],
        y: &mut [],
        z: &mut [],
        o: &mut o,
        i: &mut [],
        e: &mut [],
    };
    let mut lent = Lent::new(rooms);
    let mut items = Items::new();
    let mut left = Items::new();
    lent.take(Letter::O, b"00*8", &last, &mut left)?;
    last.restore(Output::Bytes, &lent)?;
    lent.go_on(&last)?;
    assert_eq!(rt; lent.sizes().o, 8);
    let request = b"fill 0 8 = 0 | 00*8";
    let reading = Reading::read(request, &mut items, &mut left, &last.answer)?;
    let mut ran = Ran::new();
    last.answer.begin(0)?;
    ran.take(Output::Bytes, &last);
    let outcome = outcome::compare(&reading, ran, &lent, &last, &mut left)?;
    assert_eq!(rt; outcome.verdict, Verdict::Same);
    Ok(())
}
