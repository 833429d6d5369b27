// Where the faults and the warnings of manifests stand in the text that they were read from.
// Nothing rests on it but a hint to people, so nothing is stated of it.
use cj_answers::given_zones;
use cj_args::CheckRequest;
use cj_base::{FieldFault, Refusal};
use cj_io::{Failure, ZoneFile};
use cj_manifest::{Warning, read_manifest};
use cj_yaml::{Document, FaultKind, Place, Places, Step, read};
use cj_zone::ZoneTable;
use serde_json::Value;
use std::alloc::Global;

// The most bytes of a value that a line shows.
const MOST_SHOWN: usize = 60;

// Where an object stands in a document.
#[derive(Clone, Copy)]
enum Spot {
    // It is the document.
    Whole,
    // It is this item of the document's array.
    Item(usize),
    // It is this item of the document, which is a list as `kubectl` prints it.
    Listed(usize),
}

// A text, and what is told of places in it.
#[derive(Drop)]
struct Hints<'a> {
    alloc: Global,
    name: &'a str,
    bytes: &'a [u8],
    zones: &'a ZoneTable,
    lines: String,
}

// The value at a path of members, if it is there.
fn value_at<'v>(object: &'v Value, path: &str) -> Option<&'v Value> {
    let mut value = object;
    for key in path.split('.') {
        value = value.get(key)?;
    }
    Some(value)
}

// The kind of an object.
fn kind_of(object: &Value) -> Option<&str> {
    object.get("kind")?.as_str()
}

// Whether it is an object that `check` passes over.
fn is_other(object: &Value) -> bool {
    match kind_of(object) {
        Some(kind) => kind != "CronJob" && kind != "Job",
        None => false,
    }
}

fn is_list(object: &Value) -> bool {
    match kind_of(object) {
        Some(kind) => kind == "List" || kind == "CronJobList" || kind == "JobList",
        None => false,
    }
}

// The items of an object that is a list.
fn items_of(object: &Value) -> Option<&[Value]> {
    if is_list(object) {
        Some(object.get("items")?.as_array()?.as_slice())
    } else {
        None
    }
}

// The steps to a field of an object.
fn path_to(alloc: Global, spot: Spot, field: &str) -> Result<Vec<Step<'_>>, Failure> {
    let mut path = Vec::new(alloc);
    match spot {
        Spot::Whole => {}
        Spot::Item(number) => path.push(Step::Item(number))?,
        Spot::Listed(number) => {
            path.push(Step::Key("items"))?;
            path.push(Step::Item(number))?;
        }
    }
    for key in field.split('.') {
        path.push(Step::Key(key))?;
    }
    Ok(path)
}

// The words behind a field of an object: its value, or that it is missing.
fn field_words(alloc: Global, object: &Value, field: &str) -> Result<String, Failure> {
    if field == "$" {
        return Ok(String::new(alloc));
    }
    let Some(value) = value_at(object, field) else {
        return Ok(String::from_str(alloc, ": missing here")?);
    };
    let text = value.to_string(alloc)?;
    if value.is_object() || value.is_array() || text.len() > MOST_SHOWN {
        Ok(String::new(alloc))
    } else {
        Ok(format!(in alloc; ": {text}")?)
    }
}

impl<'a> Hints<'a> {
    // Adds the line on a field of an object.
    fn push_field(
        &mut self,
        places: &Places,
        spot: Spot,
        object: &Value,
        field: &str,
    ) -> Result<(), Failure> {
        let path = path_to(self.alloc, spot, field)?;
        match places.nearest(self.alloc, self.bytes, path.as_slice()) {
            Ok(place) => {
                let words = field_words(self.alloc, object, field)?;
                let name = self.name;
                let Place { line, column } = place;
                let line = format!(in self.alloc; "{name}:{line}:{column}: {field}{words}\n")?;
                self.lines.push_str(line.as_str())?;
                Ok(())
            }
            Err(fault) => match fault.kind {
                FaultKind::OutOfMemory => Err(Failure::Memory),
                _ => Ok(()),
            },
        }
    }

    // Adds the lines on the warnings of a manifest.
    fn push_warnings(
        &mut self,
        places: &Places,
        spot: Spot,
        object: &Value,
        warnings: &[Warning],
    ) -> Result<(), Failure> {
        for warning in warnings {
            self.push_field(places, spot, object, warning.path())?;
        }
        Ok(())
    }

    // Adds the lines on the faults of a manifest.
    fn push_faults(
        &mut self,
        places: &Places,
        spot: Spot,
        object: &Value,
        faults: &[FieldFault],
    ) -> Result<(), Failure> {
        for fault in faults {
            self.push_field(places, spot, object, fault.field.path())?;
        }
        Ok(())
    }

    // Adds the lines on an object.
    fn push_object(&mut self, places: &Places, spot: Spot, object: &Value) -> Result<(), Failure> {
        let text = object.to_string(self.alloc)?;
        match read_manifest(self.alloc, text.as_bytes(), self.zones) {
            Ok((_manifest, warnings)) => {
                self.push_warnings(places, spot, object, warnings.as_slice())
            }
            Err(refusal) => match &refusal {
                Refusal::Invalid(faults) => {
                    self.push_faults(places, spot, object, faults.as_slice())
                }
                Refusal::OutOfMemory => Err(Failure::Memory),
                _ => Ok(()),
            },
        }
    }

    // Adds the lines on the items of a document that is an array.
    fn push_items(&mut self, places: &Places, items: &[Value]) -> Result<(), Failure> {
        for (number, item) in items.iter().enumerate() {
            if !is_other(item) {
                self.push_object(places, Spot::Item(number), item)?;
            }
        }
        Ok(())
    }

    // Adds the lines on the items of a list.
    fn push_listed(&mut self, places: &Places, items: &[Value]) -> Result<(), Failure> {
        for (number, item) in items.iter().enumerate() {
            if !is_other(item) {
                self.push_object(places, Spot::Listed(number), item)?;
            }
        }
        Ok(())
    }

    // Adds the lines on a document.
    fn push_document(&mut self, document: &Document) -> Result<(), Failure> {
        let (value, places) = (&document.value, &document.places);
        if let Some(items) = items_of(value) {
            return self.push_listed(places, items);
        }
        if let Some(items) = value.as_array() {
            return self.push_items(places, items.as_slice());
        }
        if value.is_null() || is_other(value) {
            return Ok(());
        }
        self.push_object(places, Spot::Whole, value)
    }
}

fn is_blank(byte: u8) -> bool {
    byte == b' ' || byte == b'\t' || byte == b'\n' || byte == b'\r'
}

// Whether a text begins as an object or a list of JSON does.
fn is_braced(bytes: &[u8]) -> bool {
    let text = bytes.strip_prefix(b"\xef\xbb\xbf").unwrap_or(bytes);
    match text.iter().copied().find(|byte| !is_blank(*byte)) {
        Some(byte) => byte == b'{' || byte == b'[',
        None => false,
    }
}

// The lines on the manifests in a text.
fn lines_of(alloc: Global, zones: &ZoneTable, name: &str, bytes: &[u8]) -> Result<String, Failure> {
    let mut hints = Hints {
        alloc,
        name,
        bytes,
        zones,
        lines: String::new(alloc),
    };
    match read(alloc, bytes) {
        Ok(documents) => {
            for document in documents.as_slice() {
                hints.push_document(document)?;
            }
        }
        Err(fault) => match fault.kind {
            FaultKind::OutOfMemory => return Err(Failure::Memory),
            _ => {}
        },
    }
    let Hints { lines, .. } = hints;
    Ok(lines)
}

/// A line for each fault and each warning of the manifests in a text in YAML: the file, the line
/// and the column. What is missing is told where it is missed. Of JSON nothing is told.
pub fn fault_places(
    alloc: Global,
    check: &CheckRequest<'_>,
    files: &[ZoneFile],
    name: &str,
    bytes: &[u8],
) -> Result<String, Failure> {
    if is_braced(bytes) {
        return Ok(String::new(alloc));
    }
    match given_zones(alloc, &check.zones, files)? {
        Some(zones) => lines_of(alloc, &zones, name, bytes),
        None => Ok(String::new(alloc)),
    }
}
