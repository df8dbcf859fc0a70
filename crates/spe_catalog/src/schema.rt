//! The rows of the schema table.

ghost use Rattle.std.specs.Prelude.{◌≡◌, ◌<◌, ◌^◌, ◌∷◌, [], IfOk, IfSome, SomeIff};
ghost use Rattle.std.specs.Option.{option_map};
ghost use Rattle.spe_model.specs.Schema.{is_table_row, root_in, root_of, sql_in, schema_row, schema_row_of};
ghost use Rattle.spe_catalog.specs.Row.{text_in};

use spe_model::{Text, Value};
use spe_record::{RecordFault, decode};
use std::alloc::{AllocError, Global};
use std::marker::Model;

/// A row of the schema table ("Storage Of The SQL Database Schema" in SQLite's Database File Format),
/// seen as what its record says.
#[derive(Debug, Drop)]
pub struct SchemaRow {
    rowid: i64,
    kind: Text,
    name: Text,
    tbl_name: Text,
    rootpage: Option<i64>,
    sql: Option<Text>,
}

impl Model for SchemaRow {
    ghost use Rattle.spe_model.specs.Schema.{SchemaRow as Row};

    ghost Value = { Row };

    ghost view = { λ r. record { rowid = r.rowid; type = r.kind; name = r.name; tbl_name = r.tbl_name; rootpage = r.rootpage; sql = r.sql } };
}

impl SchemaRow {
    /// The row of these values, or `None` where they are not five of the right kinds.
    pub fn from_values(rowid: i64, values: Vec<Value>) -> Option<SchemaRow>
        ensures value { result ≡ schema_row rowid values.items }
        ensures own { IfSome result (λ row. row.rowid ≡ rowid) }
    {
        match <[Value; 5]>::try_from(values) {
            Ok([kind, name, tbl_name, root, sql]) => {
                row_from(rowid, kind, name, tbl_name, root, sql)
            }
            Err(_values) => None,
        }
    }

    /// The row's own rowid in the schema table.
    pub fn rowid(&self) -> i64
        ensures { result ≡ self.now.rowid }
    {
        self.rowid
    }

    /// The object's type, such as `table`.
    pub fn kind(&self) -> &Text
        ensures { result.now ≡ self.now.type }
    {
        &self.kind
    }

    /// The object's name.
    pub fn name(&self) -> &Text
        ensures { result.now ≡ self.now.name }
    {
        &self.name
    }

    /// The name of the table that the object belongs to.
    pub fn tbl_name(&self) -> &Text
        ensures { result.now ≡ self.now.tbl_name }
    {
        &self.tbl_name
    }

    /// The number of the root page as it stands there, or `None` for NULL.
    pub fn rootpage(&self) -> Option<i64>
        ensures { result ≡ self.now.rootpage }
    {
        self.rootpage
    }

    /// The text that defines the object, or `None` for NULL.
    pub fn sql(&self) -> Option<&Text>
        ensures { option_map (λ t. t.now) result ≡ self.now.sql }
    {
        self.sql.as_ref()
    }

    /// Whether the object is a table.
    pub fn is_table(&self) -> bool
        ensures { result ≡ is_table_row self.now }
    {
        self.kind.as_slice() == b"table".as_slice()
    }

    /// The page of the root, or 0 where there is none. `None` where its number is past 32 bits.
    pub fn root(&self) -> Option<u32>
        ensures { SomeIff result (root_of self.now.rootpage < 2 ^ 32) (root_of self.now.rootpage) }
    {
        match self.rootpage {
            Some(number) if number > 0 => u32::try_from(number).ok(),
            _ => Some(0),
        }
    }
}

fn text_in(value: Value) -> Option<Text>
    ensures { result ≡ text_in value }
{
    match value {
        Value::Text(text) => Some(text),
        _ => None,
    }
}

// The number of a root page, which may be NULL.
fn root_in(value: Value) -> Option<Option<i64>>
    ensures { result ≡ root_in value }
{
    match value {
        Value::Null => Some(None),
        Value::Int(number) => Some(Some(number)),
        _ => None,
    }
}

// The text of a definition, which may be NULL.
fn sql_in(value: Value) -> Option<Option<Text>>
    ensures { result ≡ sql_in value }
{
    match value {
        Value::Null => Some(None),
        Value::Text(text) => Some(Some(text)),
        _ => None,
    }
}

// The row of five values.
fn row_from(
    rowid: i64,
    kind: Value,
    name: Value,
    tbl_name: Value,
    root: Value,
    sql: Value,
) -> Option<SchemaRow>
    ensures value { result ≡ schema_row rowid (kind ∷ name ∷ tbl_name ∷ root ∷ sql ∷ []) }
    ensures own { IfSome result (λ row. row.rowid ≡ rowid) }
{
    let kind = text_in(kind)?;
    let name = text_in(name)?;
    let tbl_name = text_in(tbl_name)?;
    let rootpage = root_in(root)?;
    let sql = sql_in(sql)?;
    Some(SchemaRow {
        rowid,
        kind,
        name,
        tbl_name,
        rootpage,
        sql,
    })
}

/// The row of the schema table that has this rowid and this payload, or `None` where the payload is no
/// record or its fields are not five of the right kinds: three texts, a whole number or NULL, and a
/// text or NULL.
pub fn schema_row(
    alloc: Global,
    rowid: i64,
    payload: &[u8],
) -> Result<Option<SchemaRow>, AllocError>
    ensures { IfOk result (λ row. row ≡ schema_row_of (rowid, payload.now)) }
{
    match decode(alloc, payload) {
        Ok(values) => Ok(SchemaRow::from_values(rowid, values.into_vec())),
        Err(RecordFault::Memory) => Err(AllocError),
        Err(_) => Ok(None),
    }
}
