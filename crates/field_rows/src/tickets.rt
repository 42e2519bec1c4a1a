// Draws by one ticket and by two, and that threads may share the word and take tickets along.
use crate::compare::same;
use block_claims::{claims, draw, is_done, last_word, last_word_of, rejoin, split};
use std::test::Fail;

fn is_shared_by_threads<T: Sync>(_value: &T) {}

fn goes_to_a_thread<T: Send + Drop>(_value: T) {}

#[test]
fn two_blocks_one_ticket(rt: HostRuntime) -> Result<(), Fail> {
    let (word, mut ticket) = claims(rt.alloc(), 2)?;
    let answer = draw(&word, &mut ticket);
    assert!(rt; answer == Some(0));
    let answer = draw(&word, &mut ticket);
    assert!(rt; answer == Some(1));
    assert!(rt; !is_done(&ticket));
    let answer = draw(&word, &mut ticket);
    same(&rt, &answer, &None);
    assert!(rt; is_done(&ticket));
    same(&rt, &last_word(word), &3);
    Ok(())
}

#[test]
fn no_block(rt: HostRuntime) -> Result<(), Fail> {
    let (word, mut ticket) = claims(rt.alloc(), 0)?;
    let answer = draw(&word, &mut ticket);
    same(&rt, &answer, &None);
    assert!(rt; is_done(&ticket));
    same(&rt, &last_word(word), &1);
    Ok(())
}

#[test]
fn two_tickets(rt: HostRuntime) -> Result<(), Fail> {
    let (word, mut first) = claims(rt.alloc(), 3)?;
    let mut further = split(&word, &mut first);
    let answer = draw(&word, &mut first);
    assert!(rt; answer == Some(0));
    let answer = draw(&word, &mut further);
    assert!(rt; answer == Some(1));
    let answer = draw(&word, &mut first);
    assert!(rt; answer == Some(2));
    let answer = draw(&word, &mut further);
    same(&rt, &answer, &None);
    let answer = draw(&word, &mut first);
    same(&rt, &answer, &None);
    rejoin(&word, &mut first, further);
    assert!(rt; is_done(&first));
    same(&rt, &last_word_of(word, first), &5);
    Ok(())
}

#[test]
fn threads_share_the_word_and_own_tickets(rt: HostRuntime) -> Result<(), Fail> {
    let (word, ticket) = claims(rt.alloc(), 1)?;
    is_shared_by_threads(&word);
    goes_to_a_thread(ticket);
    goes_to_a_thread(word);
    Ok(())
}
