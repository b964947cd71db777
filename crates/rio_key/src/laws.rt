//! Laws of keys: how reading, spelling and first faults belong together, and that there is one key at a place.
ghost use Rattle.rio_num.specs.Laws.{Agrees};
ghost use Rattle.rio_key.specs.{BasketFront.{basket_front}, BasketHead.{basket_head_layout}, Laws.{KeyFromFront, KeyInFront}, Key.{SpellsKey, key_layout}, KeyList.{SpellsKeyList, key_list_layout}, Written.{WrittenKeyIsSpelled}};
ghost use Rattle.rio_num.specs.Plain.{IsOne};

/// What is spelled is read, what breaks gives the fault, what is read is spelled, and what fails is broken: so it is with
/// keys, with lists of their heads, with the heads of baskets, and with the keys that have one.
pub fn meanings_agree()
    ensures key { Agrees key_layout }
    ensures list { Agrees key_list_layout }
    ensures head { Agrees basket_head_layout }
    ensures front { Agrees basket_front }
{}

/// One key is spelled at the beginning of some bytes, by one front of them.
pub fn one_key()
    ensures { IsOne SpellsKey }
{}

/// One list of key heads is spelled at the beginning of some bytes, by one front of them.
pub fn one_key_list()
    ensures { IsOne SpellsKeyList }
{}

/// A key ends within its KeyLen: so many bytes give it as all do.
pub fn key_in_front()
    ensures in_front { KeyInFront }
    ensures from_front { KeyFromFront }
{}

/// What is written of a key spells it, where its numbers and texts fit their fields, its record holds it and it holds its
/// title. So such a key is read as it was written.
pub fn written_key_is_spelled()
    ensures { WrittenKeyIsSpelled }
{}
