use crate::asserts::{holds, is, is_at};
use bytes::BytesMut;
use dkg_values::*;
use std::alloc::Global;
use std::test::Fail;

#[test]
fn numbers_keep_to_their_width(rt: HostRuntime) -> Result<(), Fail> {
    let wide = [0xff, 0xff, 0xff, 0xff, 0x10];
    is(
        &rt,
        read_u32(&mut Reader::new(&wide)),
        Err(CodecError::InvalidVarint),
    );
    is(&rt, read_u64(&mut Reader::new(&wide)), Ok(0x1_0fff_ffff));
    Ok(())
}

fn written<T: Write>(alloc: Global, value: &T) -> Mem<Vec<u8>> {
    let mut out = BytesMut::new(alloc);
    value.write(&mut out)?;
    Ok(out.into_vec()?)
}

/// Whether a value is written as these bytes.
fn has_bytes<T: Write>(alloc: Global, value: &T, bytes: &[u8]) -> Mem<bool> {
    Ok(written(alloc, value)?.as_slice() == bytes)
}

#[test]
fn plain_values_have_their_bytes(rt: HostRuntime) -> Result<(), Fail> {
    let alloc = rt.alloc();
    holds(&rt, has_bytes(alloc, &Key(0x0102_0304), &[1, 2, 3, 4])?);
    holds(&rt, has_bytes(alloc, &Height(300), &[0xac, 0x02])?);
    holds(&rt, has_bytes(alloc, &Mark([7; 8]), &[7; 8])?);
    holds(&rt, has_bytes(alloc, &Digest([8; 32]), &[8; 32])?);
    holds(&rt, has_bytes(alloc, &Seed([9; 32]), &[9; 32])?);
    Ok(())
}

#[test]
fn elements_are_below_the_prime(rt: HostRuntime) -> Result<(), Fail> {
    is(&rt, Element::new(65521), None);
    let element = Element::new(65520).ok_or("65520 is an element")?;
    holds(&rt, has_bytes(rt.alloc(), &element, &[0xff, 0xf0])?);
    Ok(())
}

#[test]
fn plain_values_are_read(rt: HostRuntime) -> Result<(), Fail> {
    let alloc = rt.alloc();
    is(&rt, round_trip(alloc, &Key(5), &()), Ok(Key(5)));
    is(&rt, round_trip(alloc, &Height(9), &()), Ok(Height(9)));
    is(
        &rt,
        decode_cfg::<Mark>(alloc, &[1, 2, 3], &()),
        Err(CodecError::EndOfBuffer),
    );
    is(&rt, read_byte(&mut Reader::new(&[6, 7])), Ok(6));
    is(
        &rt,
        read_array::<2>(&mut Reader::new(&[6, 7, 8])),
        Ok([6, 7]),
    );
    Ok(())
}

/// The set of the keys 1 and 5.
fn some(alloc: Global) -> Result<Set, Fail> {
    Ok(Set::from_any(alloc, &[Key(5), Key(1), Key(5)])?)
}

/// The set of the keys 1 and 3.
fn more(alloc: Global) -> Result<Set, Fail> {
    Ok(Set::from_any(alloc, &[Key(3), Key(1)])?)
}

/// The union of both.
fn both(alloc: Global) -> Result<Set, Fail> {
    let some = some(alloc)?;
    let more = more(alloc)?;
    if some.len() > 9 || more.len() > 9 {
        return Err(Fail::from("too many keys"));
    }
    Ok(some.union(alloc, &more)?)
}

#[test]
fn sets_are_of_any_list(rt: HostRuntime) -> Result<(), Fail> {
    let all = both(rt.alloc())?;
    is(&rt, all.as_slice(), [Key(1), Key(3), Key(5)].as_slice());
    is(&rt, all.position(Key(5)), Some(2));
    is(&rt, all.position(Key(4)), None);
    Ok(())
}

/// Whether keys are sorted.
fn is_sorted(alloc: Global, keys: &[Key]) -> Result<bool, Fail> {
    if keys.len() > 9 {
        return Err(Fail::from("too many keys"));
    }
    Ok(Set::from_sorted(keys.to_vec(alloc)?).is_ok())
}

#[test]
fn sets_rise(rt: HostRuntime) -> Result<(), Fail> {
    let alloc = rt.alloc();
    holds(&rt, is_sorted(alloc, &[Key(1), Key(3), Key(5)])?);
    holds(&rt, !is_sorted(alloc, &[Key(2), Key(2)])?);
    Ok(())
}

#[test]
fn sets_are_copied_and_spelled(rt: HostRuntime) -> Result<(), Fail> {
    let more = more(rt.alloc())?;
    holds(&rt, has_copy(rt.alloc(), &more)?);
    let bytes = encode(rt.alloc(), &more)?;
    is(
        &rt,
        bytes.as_slice(),
        [2, 0, 0, 0, 1, 0, 0, 0, 3].as_slice(),
    );
    Ok(())
}

/// The heights 2 and 1 of the keys 1 and 5.
fn heights(alloc: Global) -> Result<Map<Height>, Fail> {
    let pairs = [
        (Key(5), Height(1)),
        (Key(1), Height(2)),
        (Key(5), Height(3)),
    ];
    Ok(Map::from_any(alloc, pairs.to_vec(alloc)?)?)
}

#[test]
fn maps_keep_the_first_pair(rt: HostRuntime) -> Result<(), Fail> {
    let heights = heights(rt.alloc())?;
    is(&rt, heights.len(), 2);
    is(&rt, heights.get(Key(5)), Some(&Height(1)));
    is(&rt, heights.get(Key(4)), None);
    Ok(())
}

#[test]
fn maps_have_just_their_keys(rt: HostRuntime) -> Result<(), Fail> {
    let heights = heights(rt.alloc())?;
    holds(&rt, heights.has_keys(&some(rt.alloc())?));
    holds(&rt, !heights.has_keys(&more(rt.alloc())?));
    Ok(())
}

#[test]
fn maps_are_copied_and_spelled(rt: HostRuntime) -> Result<(), Fail> {
    let heights = heights(rt.alloc())?;
    holds(&rt, has_copy(rt.alloc(), &heights)?);
    let bytes = written(rt.alloc(), &heights)?;
    is(
        &rt,
        bytes.as_slice(),
        [2, 0, 0, 0, 1, 0, 0, 0, 5, 2, 2, 1].as_slice(),
    );
    Ok(())
}

/// A count, an element, a key, a number, two elements, and a byte.
const PARTS: [u8; 16] = [3, 0, 5, 0, 0, 0, 9, 0, 0, 1, 0, 0, 7, 0, 8, 6];

#[test]
fn numbers_are_taken_from_the_front(rt: HostRuntime) -> Result<(), Fail> {
    let mut input = Reader::new(&PARTS);
    is(&rt, read_count(&mut input, 0, 3), Ok(3));
    is(&rt, read_be16(&mut input), Ok(5));
    is(&rt, read_be32(&mut input), Ok(9));
    is(&rt, read_be32(&mut input), Ok(256));
    Ok(())
}

#[test]
fn lists_are_taken_from_the_front(rt: HostRuntime) -> Result<(), Fail> {
    let mut input = Reader::new(&PARTS[3..]);
    let keys = read_keys(rt.alloc(), &mut input, 1)?;
    is(&rt, keys.as_slice(), [Key(9)].as_slice());
    let elements = read_many::<Element>(rt.alloc(), &mut input, 4, &())?;
    is(&rt, elements.len(), 4);
    Ok(())
}

#[test]
fn bytes_are_taken_from_the_front(rt: HostRuntime) -> Result<(), Fail> {
    let mut input = Reader::new(&PARTS[15..]);
    is(&rt, input.take(2), Err(CodecError::EndOfBuffer));
    is(&rt, input.left(), [6].as_slice());
    is(&rt, input.take(1), Ok([6].as_slice()));
    Ok(())
}

/// Whether a value's copy is the value.
fn has_copy<T: Value + Drop>(alloc: Global, value: &T) -> Mem<bool> {
    Ok(value.copy(alloc)?.same(value))
}

/// A pair in a pair.
fn pair(byte: u8) -> Result<(Epoch, (Element, Seed)), Fail> {
    let element = Element::new(258).ok_or("258 is an element")?;
    Ok((Epoch(2), (element, Seed([byte; 32]))))
}

#[test]
fn copies_are_the_same(rt: HostRuntime) -> Result<(), Fail> {
    let alloc = rt.alloc();
    holds(&rt, has_copy(alloc, &pair(4)?)?);
    holds(&rt, has_copy(alloc, &(Key(1), Height(2)))?);
    holds(&rt, has_copy(alloc, &(Digest([3; 32]), Mark([5; 8])))?);
    holds(&rt, !pair(4)?.same(&pair(5)?));
    Ok(())
}

/// The bytes 1 and this one.
fn blob(alloc: Global, byte: u8) -> Mem<Blob> {
    Ok(Blob::new([1, byte].to_vec(alloc)?))
}

#[test]
fn blobs_are_the_same(rt: HostRuntime) -> Result<(), Fail> {
    let two = blob(rt.alloc(), 2)?;
    holds(&rt, has_copy(rt.alloc(), &two)?);
    holds(&rt, !two.same(&blob(rt.alloc(), 3)?));
    Ok(())
}

#[test]
fn numbers_have_an_order(rt: HostRuntime) -> Result<(), Fail> {
    holds(&rt, Key(2) < Key(10));
    holds(&rt, Epoch(2) < Epoch(10));
    holds(&rt, Height(10) != Height(2));
    numbers_compare();
    Ok(())
}

/// The numbers of a set's keys.
fn walked(alloc: Global, keys: &Set) -> Result<Vec<u32>, Fail> {
    let mut found = Vec::new(alloc);
    for key in keys.iter() {
        found.push(key.number())?;
    }
    Ok(found)
}

#[test]
fn sets_are_walked(rt: HostRuntime) -> Result<(), Fail> {
    let keys = some(rt.alloc())?;
    is(
        &rt,
        walked(rt.alloc(), &keys)?.as_slice(),
        [1, 5].as_slice(),
    );
    holds(&rt, keys.has(Key(5)));
    holds(&rt, !keys.has(Key(2)));
    holds(&rt, !keys.is_empty());
    Ok(())
}

#[test]
fn sets_are_read_again(rt: HostRuntime) -> Result<(), Fail> {
    let keys = some(rt.alloc())?;
    is(&rt, keys.encode_size(), 9);
    let most = keys.len();
    keys.fits_limits();
    holds(&rt, round_trip(rt.alloc(), &keys, &most)?.same(&keys));
    no_prefix::<Set>();
    Ok(())
}

/// The bytes of a map whose values are short.
fn map_bytes(alloc: Global, heights: &Map<Height>) -> Mem<Blob> {
    heights.has_size();
    encode(alloc, heights)
}

/// Two keys with their heights.
const SORTED: [(Key, Height); 2] = [(Key(1), Height(300)), (Key(3), Height(0))];

/// The pairs of a map.
fn pairs_of(alloc: Global, heights: &Map<Height>) -> Result<Vec<(Key, Height)>, Fail> {
    let mut found = Vec::new(alloc);
    for (key, height) in heights.iter() {
        found.push((key, *height))?;
    }
    Ok(found)
}

/// The map of pairs, where their keys rise.
fn map_of(alloc: Global, pairs: &[(Key, Height)]) -> Result<Option<Map<Height>>, Fail> {
    if pairs.len() > 9 {
        return Err(Fail::from("too many pairs"));
    }
    Ok(Map::from_sorted(pairs.to_vec(alloc)?).ok())
}

fn sorted(alloc: Global) -> Result<Map<Height>, Fail> {
    Ok(map_of(alloc, &SORTED)?.ok_or("the keys rise")?)
}

#[test]
fn maps_are_walked(rt: HostRuntime) -> Result<(), Fail> {
    let heights = sorted(rt.alloc())?;
    is(
        &rt,
        pairs_of(rt.alloc(), &heights)?.as_slice(),
        SORTED.as_slice(),
    );
    is(&rt, heights.as_slice(), SORTED.as_slice());
    holds(&rt, !heights.is_empty());
    Ok(())
}

#[test]
fn maps_rise(rt: HostRuntime) -> Result<(), Fail> {
    let level = [(Key(3), Height(0)), (Key(3), Height(1))];
    holds(&rt, map_of(rt.alloc(), &level)?.is_none());
    Ok(())
}

#[test]
fn maps_have_a_size(rt: HostRuntime) -> Result<(), Fail> {
    let heights = sorted(rt.alloc())?;
    let bytes = map_bytes(rt.alloc(), &heights)?;
    is(
        &rt,
        bytes.as_slice(),
        [2, 0, 0, 0, 1, 0, 0, 0, 3, 2, 0xac, 0x02, 0].as_slice(),
    );
    heights.fits_limits();
    no_prefix::<Map<Height>>();
    Ok(())
}

#[test]
fn numbers_are_written(rt: HostRuntime) -> Result<(), Fail> {
    let rows: [(u64, &[u8]); 4] = [
        (0, &[0]),
        (300, &[0xac, 0x02]),
        (0xffff_ffff, &[0xff, 0xff, 0xff, 0xff, 0x0f]),
        (
            u64::MAX,
            &[0xff, 0xff, 0xff, 0xff, 0xff, 0xff, 0xff, 0xff, 0xff, 0x01],
        ),
    ];
    for (number, bytes) in rows {
        let mut out = BytesMut::new(rt.alloc());
        write_uint(&mut out, number)?;
        is_at(&rt, out.as_slice(), bytes, number);
        is_at(&rt, uint_size(number), bytes.len(), number);
    }
    Ok(())
}
