//! Values of JSON that are printed exactly, and whose text can stand in an element of a page: they have no float, and no byte of them
//! opens a tag. The values of a picture are made of them; `pictures.rt` writes the brackets and keys between.

ghost use Rattle.std.specs.Prelude.{◌≡◌, ◌++◌, ◌∷◌, [], IfOk, OnOk, true, false, string_bytes, map, option_map};
ghost use Rattle.serde_json.specs.Data.{object as object_lem, string, no_members, put as put_lem};
ghost use Rattle.serde_json.specs.View.{view, members_view};
ghost use Rattle.serde_json.specs.Written.{compact_text};
ghost use Rattle.st_entry.specs.Plain.{is_plain};
ghost use Rattle.st_player.specs.Json.{number_data, flag_data, list_data, numbers_data, number_or_null, put_list as put_list_lem, put_some as put_some_lem, put_where as put_where_lem};
ghost use Rattle.st_player.specs.Shown.{is_shown};

use serde_json::{Map, Value, put};
use std::alloc::{AllocError, Global};
use std::marker::Model;

/// A value.
#[derive(Drop)]
pub(crate) struct Json {
    value: Value,
}

/// Values in order.
#[derive(Drop)]
pub(crate) struct JsonList {
    values: Vec<Value>,
}

/// Members of an object, each key once.
#[derive(Drop)]
pub(crate) struct JsonObject {
    alloc: Global,
    members: Map<String, Value>,
}

impl Model for Json {
    ghost use Rattle.std.specs.Coded.{codes};
    ghost use Rattle.serde_json.specs.contracts.value.Value as valued;
    ghost use Rattle.serde_json.specs.declared.value.Value.{Value as Valued};
    ghost use Rattle.serde_json.specs.View.{view as view_lem};
    ghost use Rattle.st_player.specs.Safe.{IsSafe};

    ghost Value = { Valued };

    ghost coded = { Prim.hlevel (codes, valued.the_row.coded) };

    ghost view = { λ j. j.value };

    ghost invariant = { λ j. IsSafe (view_lem j.value) };
}

impl Model for JsonList {
    ghost use Rattle.std.specs.Coded.{codes};
    ghost use Rattle.std.specs.Prelude.{List};
    ghost use Rattle.serde_json.specs.contracts.value.Value as valued;
    ghost use Rattle.serde_json.specs.declared.value.Value.{Value as Valued};
    ghost use Rattle.serde_json.specs.View.{items_view};
    ghost use Rattle.st_player.specs.Safe.{AreSafeItems};

    ghost Value = { List Valued };

    ghost coded = { Prim.hlevel (codes, valued.the_row.coded) };

    ghost view = { λ l. l.values.items };

    ghost invariant = { λ l. AreSafeItems (items_view l.values.items) };
}

impl Model for JsonObject {
    ghost use Rattle.std.specs.Coded.{codes};
    ghost use Rattle.std.specs.Prelude.{List, String};
    ghost use Rattle.std.specs.declared.alloc.Global.{Global as Heap};
    ghost use Rattle.serde_json.specs.contracts.value.Value as valued;
    ghost use Rattle.serde_json.specs.declared.value.Value.{Value as Valued};
    ghost use Rattle.serde_json.specs.View.{members_view};
    ghost use Rattle.st_player.specs.Safe.{AreSafeMembers};

    ghost Value = { List (String Heap × Valued) };

    ghost coded = { Prim.hlevel (codes, valued.the_row.coded) };

    ghost view = { λ o. o.members.entries };

    ghost invariant = { λ o. AreSafeMembers (members_view o.members.entries) };
}

impl Json {
    /// A number.
    pub(crate) fn number(n: u64) -> Json
        ensures { view result ≡ number_data n }
    {
        Json {
            value: Value::from(n),
        }
    }

    /// 1 for yes, 0 for no.
    pub(crate) fn flag(is: bool) -> Json
        ensures { view result ≡ flag_data is }
    {
        if is { Json::number(1) } else { Json::number(0) }
    }

    /// A number, or null where there is none.
    pub(crate) fn number_or_null(n: Option<u32>) -> Json
        ensures { view result ≡ number_or_null n }
    {
        match n {
            Some(n) => Json::number(u64::from(n)),
            None => Json { value: Value::Null },
        }
    }

    /// A text that needs no escape.
    pub(crate) fn text(alloc: Global, bytes: &[u8]) -> Result<Json, AllocError>
        requires { is_plain bytes.now ≡ true }
        ensures { IfOk result (λ json. view json ≡ string bytes.now) }
    {
        match str::from_utf8(bytes) {
            Ok(text) => Ok(Json {
                value: Value::try_from_str(alloc, text)?,
            }),
            Err(_) => unreachable!(),
        }
    }

    /// A list.
    pub(crate) fn list(list: JsonList) -> Json
        ensures { view result ≡ list_data (map view list) }
    {
        Json {
            value: Value::Array(list.values),
        }
    }

    /// An object.
    pub(crate) fn object(object: JsonObject) -> Json
        ensures { view result ≡ object_lem (members_view object) }
    {
        Json {
            value: Value::Object(object.members),
        }
    }

    /// A list of numbers.
    pub(crate) fn numbers(alloc: Global, numbers: &[u32]) -> Result<Json, AllocError>
        ensures { IfOk result (λ json. view json ≡ numbers_data numbers.now) }
    {
        Ok(Json::list(JsonList::of_numbers(alloc, numbers)?))
    }

    /// The text of the value, with no space.
    pub(crate) fn to_text(&self, alloc: Global) -> Result<String, AllocError>
        ensures text { IfOk result (λ text. string_bytes text ≡ compact_text (view self.now)) }
        ensures shown { IfOk result (λ text. is_shown (string_bytes text) ≡ true) }
    {
        self.value.to_string(alloc)
    }
}

impl JsonList {
    /// No values. It takes no memory.
    pub(crate) fn new(alloc: Global) -> JsonList
        ensures { result ≡ [] }
    {
        JsonList {
            values: Vec::new(alloc),
        }
    }

    /// Adds a value at the end.
    pub(crate) fn push(&mut self, json: Json) -> Result<(), AllocError>
        ensures { OnOk result (self.new ≡ self.old ++ json ∷ []) }
    {
        self.values.push(json.value)?;
        Ok(())
    }

    /// Whether there is no value.
    pub(crate) fn is_empty(&self) -> bool
        ensures empty { result ≡ true → self.now ≡ [] }
        ensures filled { result ≡ false → (self.now ≡ [] → ⊥) }
    {
        self.values.is_empty()
    }

    /// These numbers.
    pub(crate) fn of_numbers(alloc: Global, numbers: &[u32]) -> Result<JsonList, AllocError>
        ensures { IfOk result (λ list. map view list ≡ map number_data numbers.now) }
    {
        let mut list = JsonList::new(alloc);
        for n in numbers {
            list.push(Json::number(u64::from(*n)))?;
        }
        Ok(list)
    }
}

impl JsonObject {
    /// No members. It takes no memory.
    pub(crate) fn new(alloc: Global) -> JsonObject
        ensures { members_view result ≡ no_members }
    {
        JsonObject {
            alloc,
            members: Map::new(alloc),
        }
    }

    /// Puts a member, whose key needs no escape.
    pub(crate) fn put(&mut self, key: &str, json: Json) -> Result<(), AllocError>
        requires { is_plain key.now ≡ true }
        ensures { OnOk result (members_view self.new ≡ put_lem key.now (view json) (members_view self.old)) }
    {
        put(&mut self.members, self.alloc, key, json.value)
    }

    /// Puts a member, where the test says so.
    pub(crate) fn put_where(&mut self, is: bool, key: &str, json: Json) -> Result<(), AllocError>
        requires { is_plain key.now ≡ true }
        ensures { OnOk result (members_view self.new ≡ put_where_lem is key.now (view json) (members_view self.old)) }
    {
        if is { self.put(key, json) } else { Ok(()) }
    }

    /// Puts a text that needs no escape, where the test says so.
    pub(crate) fn put_text_where(
        &mut self,
        is: bool,
        key: &str,
        bytes: &[u8],
    ) -> Result<(), AllocError>
        requires key { is_plain key.now ≡ true }
        requires text { is_plain bytes.now ≡ true }
        ensures { OnOk result (members_view self.new ≡ put_where_lem is key.now (string bytes.now) (members_view self.old)) }
    {
        if is {
            self.put_text(key, bytes)
        } else {
            Ok(())
        }
    }

    /// Puts a list of numbers, where the test says so.
    pub(crate) fn put_array_where(
        &mut self,
        is: bool,
        key: &str,
        numbers: &[u32],
    ) -> Result<(), AllocError>
        requires { is_plain key.now ≡ true }
        ensures { OnOk result (members_view self.new ≡ put_where_lem is key.now (numbers_data numbers.now) (members_view self.old)) }
    {
        if is {
            self.put_array(key, numbers)
        } else {
            Ok(())
        }
    }

    /// Puts a member, where there is a value.
    pub(crate) fn put_some(&mut self, key: &str, json: Option<Json>) -> Result<(), AllocError>
        requires { is_plain key.now ≡ true }
        ensures { OnOk result (members_view self.new ≡ put_some_lem key.now (option_map view json) (members_view self.old)) }
    {
        match json {
            Some(json) => self.put(key, json),
            None => Ok(()),
        }
    }

    /// Puts a list, where it is not empty.
    pub(crate) fn put_list(&mut self, key: &str, list: JsonList) -> Result<(), AllocError>
        requires { is_plain key.now ≡ true }
        ensures { OnOk result (members_view self.new ≡ put_list_lem key.now (map view list) (members_view self.old)) }
    {
        if list.is_empty() {
            Ok(())
        } else {
            self.put(key, Json::list(list))
        }
    }

    /// Puts a list of numbers, where it is not empty.
    pub(crate) fn put_numbers(&mut self, key: &str, numbers: &[u32]) -> Result<(), AllocError>
        requires { is_plain key.now ≡ true }
        ensures { OnOk result (members_view self.new ≡ put_list_lem key.now (map number_data numbers.now) (members_view self.old)) }
    {
        let list = JsonList::of_numbers(self.alloc, numbers)?;
        self.put_list(key, list)
    }

    /// Puts a text that needs no escape.
    pub(crate) fn put_text(&mut self, key: &str, bytes: &[u8]) -> Result<(), AllocError>
        requires key { is_plain key.now ≡ true }
        requires text { is_plain bytes.now ≡ true }
        ensures { OnOk result (members_view self.new ≡ put_lem key.now (string bytes.now) (members_view self.old)) }
    {
        let json = Json::text(self.alloc, bytes)?;
        self.put(key, json)
    }

    /// Puts a number.
    pub(crate) fn put_number(&mut self, key: &str, n: u64) -> Result<(), AllocError>
        requires { is_plain key.now ≡ true }
        ensures { OnOk result (members_view self.new ≡ put_lem key.now (number_data n) (members_view self.old)) }
    {
        self.put(key, Json::number(n))
    }

    /// Puts a number, where there is one.
    pub(crate) fn put_number_some(&mut self, key: &str, n: Option<u32>) -> Result<(), AllocError>
        requires { is_plain key.now ≡ true }
        ensures { OnOk result (members_view self.new ≡ put_some_lem key.now (option_map number_data n) (members_view self.old)) }
    {
        match n {
            Some(n) => self.put_number(key, u64::from(n)),
            None => Ok(()),
        }
    }

    /// Puts a list of numbers.
    pub(crate) fn put_array(&mut self, key: &str, numbers: &[u32]) -> Result<(), AllocError>
        requires { is_plain key.now ≡ true }
        ensures { OnOk result (members_view self.new ≡ put_lem key.now (numbers_data numbers.now) (members_view self.old)) }
    {
        let json = Json::numbers(self.alloc, numbers)?;
        self.put(key, json)
    }
}
