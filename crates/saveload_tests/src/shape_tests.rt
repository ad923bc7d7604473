//! Data of each shape: what is written of it, and which texts are no such datum.
use saveload::{
    Datum, EntityData, JsonData, JsonFields, LoadError, Plain, SavedText, SavedVec, from_json,
    to_json,
};
use std::alloc::{AllocError, Global};
use std::test::Fail;
use storages::{HashMapStorage, VecStorage};

// What somebody is called.
struct Called;

impl Plain<SavedText> for Called {
    type Storage = HashMapStorage<Datum<Self, SavedText>>;
}

// Where somebody is, in whole steps.
struct At;

impl Plain<(i64, i64)> for At {
    type Storage = VecStorage<Datum<Self, (i64, i64)>>;
}

// A list of one record, with one datum.
type One<T> = Vec<EntityData<u64, (Option<T>,)>>;

fn text_around(alloc: Global, datum: &str) -> Result<String, AllocError> {
    let mut text = String::from_str(alloc, "[{\"components\":[[")?;
    text.push_str(datum)?;
    text.push_str("]],\"marker\":7}]")?;
    Ok(text)
}

/// Whether a datum is written as a text.
fn is_written<T: JsonData + Drop>(alloc: Global, datum: T, text: &str) -> Result<bool, Fail> {
    let mut list: One<T> = Vec::new(alloc);
    list.push(EntityData {
        marker: 7,
        components: (Some(datum),),
    })?;
    let written = to_json(alloc, list.as_slice())?;
    Ok(written.as_str() == text_around(alloc, text)?.as_str())
}

fn read<T: JsonData + Drop>(alloc: Global, datum: &str) -> Result<One<T>, LoadError> {
    let text = text_around(alloc, datum)?;
    from_json(alloc, text.as_str())
}

/// Whether a text is read as a datum that is written as it.
fn is_kept<T: JsonData + Drop>(alloc: Global, datum: &str) -> Result<bool, Fail> {
    match read::<T>(alloc, datum) {
        Ok(list) => {
            let written = to_json(alloc, list.as_slice())?;
            Ok(written.as_str() == text_around(alloc, datum)?.as_str())
        }
        Err(_) => Ok(false),
    }
}

fn is_refused<T: JsonData + Drop>(alloc: Global, datum: &str) -> bool {
    matches!(read::<T>(alloc, datum), Err(LoadError::NotTheForm))
}

/// Whether each of some texts is read as a datum that is written as it.
fn are_kept<T: JsonData + Drop>(alloc: Global, data: &[&str]) -> Result<bool, Fail> {
    for datum in data {
        if !is_kept::<T>(alloc, datum)? {
            return Ok(false);
        }
    }
    Ok(true)
}

fn are_refused<T: JsonData + Drop>(alloc: Global, data: &[&str]) -> bool {
    for datum in data {
        if !is_refused::<T>(alloc, datum) {
            return false;
        }
    }
    true
}

#[test]
fn a_ready_datum_is_saved_as_its_value(rt: HostRuntime) -> Result<(), Fail> {
    let alloc = rt.alloc();
    let name = SavedText::from_str(alloc, "Ann")?;
    assert!(rt; is_written(alloc, Datum::<Called, _>::new(name), "\"Ann\"")?);
    assert!(rt; is_written(alloc, Datum::<At, (i64, i64)>::new((3, -4)), "[3,-4]")?);
    assert!(rt; are_kept::<Datum<Called, SavedText>>(alloc, &["\"\"", "\"Bea\""])?);
    assert!(rt; are_refused::<Datum<Called, SavedText>>(alloc, &["[\"Bea\"]", "7", "null"]));
    assert!(rt; are_kept::<Datum<At, (i64, i64)>>(alloc, &["[0,0]"])?);
    assert!(rt; are_refused::<Datum<At, (i64, i64)>>(alloc, &["[0]", "[0,0,0]", "[0,\"0\"]"]));
    Ok(())
}

#[test]
fn whole_numbers_are_kept_in_their_range(rt: HostRuntime) -> Result<(), Fail> {
    let alloc = rt.alloc();
    assert!(rt; are_kept::<u8>(alloc, &["0", "255"])?);
    assert!(rt;
        are_refused::<u8>(
            alloc,
            &["256", "-1", "1.0", "1e0", "\"1\"", "true", "[1]", "null"]
        )
    );
    assert!(rt; are_kept::<u16>(alloc, &["65535"])? && is_refused::<u16>(alloc, "65536"));
    assert!(rt; are_kept::<u32>(alloc, &["4294967295"])? && is_refused::<u32>(alloc, "4294967296"));
    assert!(rt; are_kept::<u64>(alloc, &["18446744073709551615"])?);
    assert!(rt; is_refused::<u64>(alloc, "18446744073709551616"));
    assert!(rt; are_kept::<usize>(alloc, &["18446744073709551615"])?);
    assert!(rt; are_kept::<i8>(alloc, &["-128", "127"])?);
    assert!(rt; are_refused::<i8>(alloc, &["-129", "128", "-0.5", "{}", "null"]));
    assert!(rt; are_kept::<i16>(alloc, &["-32768", "32767"])?);
    assert!(rt; are_refused::<i16>(alloc, &["-32769", "32768"]));
    assert!(rt; are_kept::<i32>(alloc, &["-2147483648", "2147483647"])?);
    assert!(rt; are_refused::<i32>(alloc, &["-2147483649", "2147483648"]));
    assert!(rt; are_kept::<i64>(alloc, &["-9223372036854775808", "9223372036854775807"])?);
    assert!(rt; are_kept::<isize>(alloc, &["-9223372036854775808", "9223372036854775807"])?);
    assert!(rt; are_refused::<isize>(alloc, &["-9223372036854775809", "9223372036854775808"]));
    Ok(())
}

#[test]
fn floats_are_kept_by_their_bits(rt: HostRuntime) -> Result<(), Fail> {
    let alloc = rt.alloc();
    assert!(rt; is_written(alloc, 1.5f64, "4609434218613702656")?);
    assert!(rt; is_written(alloc, 0.0f64, "0")?);
    assert!(rt; is_written(alloc, -0.0f64, "9223372036854775808")?);
    assert!(rt; is_written(alloc, 1.0f64 / 0.0, "9218868437227405312")?);
    assert!(rt; is_written(alloc, 0.0f64 / 0.0, "9221120237041090560")?);
    assert!(rt; is_written(alloc, 0.1f64, "4591870180066957722")?);
    assert!(rt; are_kept::<f64>(alloc, &["9223372036854775808", "9221120237041090560", "1"])?);
    assert!(rt;
        are_refused::<f64>(
            alloc,
            &["9221120237041090561", "1.5", "-1", "null", "\"NaN\""]
        )
    );
    assert!(rt; is_written(alloc, 1.5f32, "1069547520")?);
    assert!(rt; is_written(alloc, -0.0f32, "2147483648")?);
    assert!(rt; is_written(alloc, 0.0f32 / 0.0, "2143289344")?);
    assert!(rt; are_kept::<f32>(alloc, &["2147483648", "2143289344", "4286578688"])?);
    assert!(rt; are_refused::<f32>(alloc, &["2143289345", "4294967296", "0.5", "null"]));
    Ok(())
}

#[test]
fn flags_characters_and_texts_are_kept(rt: HostRuntime) -> Result<(), Fail> {
    let alloc = rt.alloc();
    assert!(rt; are_kept::<bool>(alloc, &["true", "false"])?);
    assert!(rt; are_refused::<bool>(alloc, &["0", "1", "\"true\"", "null", "[true]"]));
    assert!(rt; is_written(alloc, 'a', "97")? && is_written(alloc, '\u{1F600}', "128512")?);
    assert!(rt; are_kept::<char>(alloc, &["0", "55295", "57344", "1114111"])?);
    assert!(rt; are_refused::<char>(alloc, &["55296", "57343", "1114112", "\"a\"", "-1"]));
    assert!(rt; are_kept::<SavedText>(alloc, &["\"\"", "\"a \\\"b\\\" \\\\ \\n\"", "\"ü\""])?);
    assert!(rt; are_refused::<SavedText>(alloc, &["97", "null", "[\"a\"]", "\"a\",\"b\""]));
    Ok(())
}

#[test]
fn options_and_lists_are_kept(rt: HostRuntime) -> Result<(), Fail> {
    let alloc = rt.alloc();
    assert!(rt; is_written(alloc, Some(5u32), "[true,5]")?);
    assert!(rt; is_written::<Option<u32>>(alloc, None, "[false]")?);
    assert!(rt;
        are_kept::<Option<Option<bool>>>(alloc, &["[false]", "[true,false]", "[true,true,false]"])?
    );
    assert!(rt;
        are_refused::<Option<u8>>(
            alloc,
            &[
                "[]",
                "[true]",
                "[false,1]",
                "[true,5,6]",
                "[5]",
                "[true,256]",
                "null",
                "5"
            ]
        )
    );
    assert!(rt; are_kept::<SavedVec<i8>>(alloc, &["[0]", "[2,10,-20]"])?);
    assert!(rt;
        are_refused::<SavedVec<i8>>(
            alloc,
            &[
                "[]",
                "[3,10,20]",
                "[1,10,20]",
                "[1,128]",
                "[-1]",
                "[18446744073709551615,1]",
                "null",
                "{}",
                "[[1]]"
            ]
        )
    );
    assert!(rt; are_kept::<SavedVec<SavedVec<u8>>>(alloc, &["[0]", "[2,1,7,0]", "[1,3,1,2,3]"])?);
    Ok(())
}

#[test]
fn tuples_and_arrays_are_kept(rt: HostRuntime) -> Result<(), Fail> {
    let alloc = rt.alloc();
    assert!(rt; is_written(alloc, (1u8, -2i32), "[1,-2]")?);
    assert!(rt;
        are_refused::<(u8, i32)>(
            alloc,
            &["[]", "[1]", "[1,2,3]", "[256,1]", "[1,[2]]", "1", "null"]
        )
    );
    assert!(rt;
        are_kept::<(bool, Option<u8>, SavedText)>(
            alloc,
            &["[true,false,\"a\"]", "[false,true,9,\"\"]"]
        )?
    );
    assert!(rt;
        are_refused::<(bool, Option<u8>, SavedText)>(alloc, &["[true,false]", "[true,\"a\"]"])
    );
    assert!(rt; are_kept::<(u8, u8, u8, (u8, f32))>(alloc, &["[1,2,3,4,0]"])?);
    assert!(rt; is_written(alloc, [1u16, 2, 3], "[3,1,2,3]")?);
    assert!(rt; are_kept::<[bool; 2]>(alloc, &["[2,true,false]"])?);
    assert!(rt;
        are_refused::<[bool; 2]>(
            alloc,
            &["[1,true]", "[3,true,true,true]", "[2,true]", "[true,true]"]
        )
    );
    Ok(())
}

/// What an entity carries, with a price that is not zero.
#[derive(Drop)]
struct Ware {
    name: SavedText,
    price: u16,
    at: (f32, f32),
}

impl JsonFields for Ware {
    ghost use Rattle.std.specs.Prelude.{Some};

    type As = (SavedText, u16, (f32, f32));

    ghost fields = { λ w. (w.name, w.price, w.at) };

    ghost of_fields = { λ f. Some (record { name = f.0; price = f.1; at = f.2 }) };

    fn fields(&self, alloc: Global) -> Result<(SavedText, u16, (f32, f32)), AllocError> {
        Ok((self.name.copy(alloc)?, self.price, self.at))
    }

    fn of_fields(saved: (SavedText, u16, (f32, f32))) -> Option<Ware> {
        Some(Ware {
            name: saved.0,
            price: saved.1,
            at: saved.2,
        })
    }
}

#[test]
fn structs_are_kept_by_their_fields(rt: HostRuntime) -> Result<(), Fail> {
    let alloc = rt.alloc();
    let ware = Ware {
        name: SavedText::from_str(alloc, "rope")?,
        price: 12,
        at: (1.5, -0.0),
    };
    assert!(rt; is_written(alloc, ware, "[\"rope\",12,1069547520,2147483648]")?);
    assert!(rt; are_kept::<Ware>(alloc, &["[\"rope\",12,1069547520,2147483648]"])?);
    assert!(rt;
        are_kept::<SavedVec<Ware>>(
            alloc,
            &["[0]", "[1,\"rope\",12,0,1]", "[2,\"\",1,2,3,\"\",4,5,6]"]
        )?
    );
    assert!(rt;
        are_refused::<Ware>(
            alloc,
            &[
                "[\"rope\",12,1069547520]",
                "[\"rope\",12,0,1,1]",
                "[12,\"rope\",0,1]",
                "null"
            ]
        )
    );
    Ok(())
}
