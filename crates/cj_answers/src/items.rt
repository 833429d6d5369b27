// The list that the objects of several values are taken for: documents of YAML, values of JSON one
// behind another, arrays, lists, and what a watch prints.
ghost use Rattle.std.specs.Prelude.{◌≡◌, ◌++◌, ◌∷◌, [], ◌&&◌, Some, None, IfOk, OnOk, false, true, flat_map, is_some, map, not, option_map, string_bytes, unwrap_or, codes};
ghost use Rattle.std.specs.List.{list_all};
ghost use Rattle.serde_json.specs.Data.{Data, no_items, put, string};
ghost use Rattle.serde_json.specs.Find.{as_array};
ghost use Rattle.serde_json.specs.View.{items_view, members_view, view};
ghost use Rattle.cj_answers.specs.Objects.{IsListFor, TakesIn, are_said_once, event_objects, has_uid, is_known, is_passed, items_at, items_kind, items_of_kind, kept, left_of, list_kind, list_objects, list_of, list_once, listed, meta_at, objects_in, objects_said, put_text, says_once, text_at, typed, with_type};
ghost use Rattle.cj_answers.specs.declared.events.Event.TheVariants.{Seen};

use crate::events::{Event, event_of};
use cj_io::Failure;
use cj_manifest::present;
use serde_json::{Map, Value};
use std::alloc::Global;
use std::collections::BTreeMap;

/// What is passed over in a stream of values.
#[derive(Clone, Copy)]
pub(crate) struct Passed {
    /// How many objects of kinds that no command looks at.
    pub others: u64,
    /// How many of them have a kind that people may have meant for one that is looked at.
    pub near: u64,
    /// How many events of a watch that tell of no object.
    pub marks: u64,
}

// The objects of a stream of values, each as it was seen last.
#[derive(Drop)]
struct Items {
    // (none where the object was deleted)
    values: Vec<Option<Value>>,
    // (where an object stands, by what tells it from others)
    places: BTreeMap<String, usize>,
    passed: Passed,
}

// The text of a member.
pub(crate) fn text_at<'v>(value: &'v Value, name: &str) -> Option<&'v str>
    ensures { option_map (λ s. s.now) result ≡ text_at name.now (view value.now) }
{
    present(value, name)?.as_str()
}

// A text of the metadata.
fn meta_at<'v>(value: &'v Value, name: &str) -> Option<&'v str>
    ensures { option_map (λ s. s.now) result ≡ meta_at name.now (view value.now) }
{
    text_at(present(value, "metadata")?, name)
}

// Whether commands look at objects of this kind.
fn is_known(kind: &str) -> bool
    ensures { result ≡ is_known kind.now }
{
    let is_ours = kind == "CronJob" || kind == "Job";
    let is_list = kind == "List" || kind == "CronJobList" || kind == "JobList";
    is_ours || is_list
}

// Whether it is an object of a kind that no command looks at. What says no kind isn't.
pub(crate) fn is_other(value: &Value) -> bool
    ensures { result ≡ is_passed (view value.now) }
{
    match text_at(value, "kind") {
        Some(kind) => !is_known(kind),
        None => false,
    }
}

// Whether its kind may be meant for one that commands look at.
fn is_near(value: &Value) -> bool {
    let kind = text_at(value, "kind").unwrap_or("");
    let is_cron = kind.eq_ignore_ascii_case("CronJob") || kind.eq_ignore_ascii_case("CronJobs");
    is_cron || kind.eq_ignore_ascii_case("Job") || kind.eq_ignore_ascii_case("Jobs")
}

// The uid of an object, if it has one.
fn uid_of(value: &Value) -> Option<&str>
    ensures { is_some result ≡ has_uid (view value.now) }
{
    match meta_at(value, "uid") {
        Some("") | None => None,
        Some(uid) => Some(uid),
    }
}

// What tells an object from others: its uid, or its kind, namespace and name.
fn identity(alloc: Global, value: &Value) -> Result<Option<String>, Failure> {
    if let Some(uid) = uid_of(value) {
        return Ok(Some(format!(in alloc; "uid {uid}")?));
    }
    let Some(kind) = text_at(value, "kind") else {
        return Ok(None);
    };
    let Some(name) = meta_at(value, "name") else {
        return Ok(None);
    };
    let namespace = meta_at(value, "namespace").unwrap_or("default");
    Ok(Some(format!(in alloc; "{kind} {namespace}/{name}")?))
}

// The kind of the items of a list of this kind, if the list says it; none for what is no list.
fn items_kind(kind: &str) -> Option<Option<&'static str>>
    ensures { option_map (λ k. option_map (λ s. s.now) k) result ≡ items_kind kind.now }
{
    match kind {
        "List" => Some(None),
        "CronJobList" => Some(Some("CronJob")),
        "JobList" => Some(Some("Job")),
        _ => None,
    }
}

// The kind of the items of a list, if the value is one.
fn list_kind(value: &Value) -> Option<Option<&'static str>>
    ensures { option_map (λ k. option_map (λ s. s.now) k) result ≡ list_kind (view value.now) }
{
    if !value.get("items")?.is_array() {
        return None;
    }
    items_kind(text_at(value, "kind")?)
}

// The values of an array; none of another value.
#[tactic(auto, using(crate::proofs::ObjectLists::array_listed))]
fn array_items(alloc: Global, value: Value) -> Vec<Value>
    ensures { map view result.items ≡ listed (unwrap_or (as_array (view value)) no_items) }
{
    match value {
        Value::Array(items) => items,
        Value::Null => Vec::new(alloc),
        Value::Bool(_) => Vec::new(alloc),
        Value::Number(_) => Vec::new(alloc),
        Value::String(_) => Vec::new(alloc),
        Value::Object(_) => Vec::new(alloc),
    }
}

// What stands as the items of a list.
fn into_items(alloc: Global, mut list: Value) -> Vec<Value>
    ensures { map view result.items ≡ listed (unwrap_or (items_at (view list)) no_items) }
{
    match list.get_mut("items") {
        Some(items) => array_items(alloc, items.take()),
        None => Vec::new(alloc),
    }
}

#[tactic(auto, using(crate::proofs::ObjectLists::member_put))]
fn put(
    alloc: Global,
    members: &mut Map<String, Value>,
    name: &str,
    value: Value,
) -> Result<(), Failure>
    ensures { OnOk result (members_view members.new.entries
        ≡ put name.now (view value) (members_view members.old.entries)) }
{
    let name = String::from_str(alloc, name)?;
    drop(members.insert(name, value)?);
    Ok(())
}

fn put_text(
    alloc: Global,
    members: &mut Map<String, Value>,
    name: &str,
    text: &str,
) -> Result<(), Failure>
    ensures { OnOk result (members_view members.new.entries
        ≡ put name.now (string text.now) (members_view members.old.entries)) }
{
    put(alloc, members, name, Value::try_from_str(alloc, text)?)
}

// The members with this kind and version.
fn put_type(
    alloc: Global,
    members: &mut Map<String, Value>,
    kind: &str,
    version: Option<&str>,
) -> Result<(), Failure>
    ensures { OnOk result (members_view members.new.entries
        ≡ put_text (codes "apiVersion") (option_map (λ s. s.now) version.entry)
        (put (codes "kind") (string kind.now) (members_view members.old.entries))) }
{
    put_text(alloc, members, "kind", kind)?;
    if let Some(version) = version {
        put_text(alloc, members, "apiVersion", version)?;
    }
    Ok(())
}

// An object with this kind and version.
fn with_type(
    alloc: Global,
    item: Value,
    kind: &str,
    version: Option<&str>,
) -> Result<Value, Failure>
    ensures { IfOk result (λ v. view v
        ≡ with_type kind.now (option_map (λ s. s.now) version.entry) (view item)) }
{
    match item {
        Value::Object(mut members) => {
            put_type(alloc, &mut members, kind, version)?;
            Ok(Value::Object(members))
        }
        item => Ok(item),
    }
}

// An item with what its list says of its kind and version, where it says no kind itself.
fn typed(
    alloc: Global,
    item: Value,
    kind: Option<&str>,
    version: Option<&str>,
) -> Result<Value, Failure>
    ensures { IfOk result (λ v. view v ≡ typed (option_map (λ s. s.now) kind.entry)
        (option_map (λ s. s.now) version.entry) (view item)) }
{
    match kind {
        Some(kind) if present(&item, "kind").is_none() => with_type(alloc, item, kind, version),
        _ => Ok(item),
    }
}

impl Items {
    fn new(alloc: Global) -> Items
        ensures { left_of result.values.items ≡ [] }
    {
        Items {
            values: Vec::new(alloc),
            places: BTreeMap::new(alloc),
            passed: Passed {
                others: 0,
                near: 0,
                marks: 0,
            },
        }
    }

    // Puts an object in the place of the same one before it, or behind all others.
    fn put(&mut self, key: Option<String>, value: Option<Value>, again: bool) -> Result<(), Failure>
        ensures { OnOk result (TakesIn (not again) (left_of (value ∷ []))
            (left_of self.old.values.items) (left_of self.new.values.items)) }
    {
        let place = match &key {
            Some(key) if again => self.places.get(key).copied(),
            _ => None,
        };
        match place {
            Some(place) => self.replace(place, value),
            None => self.append(key, value)?,
        }
        Ok(())
    }

    // Puts an object in the place of another.
    #[tactic(auto, using(crate::proofs::ObjectLists::takes_same, crate::proofs::ObjectLists::replaced))]
    fn replace(&mut self, place: usize, value: Option<Value>)
        ensures { TakesIn false (left_of (value ∷ []))
            (left_of self.old.values.items) (left_of self.new.values.items) }
    {
        if let Some(there) = self.values.get_mut(place) {
            *there = value;
        }
    }

    // Puts an object behind all others.
    #[tactic(auto, using(crate::proofs::ObjectLists::appended))]
    fn append(&mut self, key: Option<String>, value: Option<Value>) -> Result<(), Failure>
        ensures { OnOk result (TakesIn true (left_of (value ∷ []))
            (left_of self.old.values.items) (left_of self.new.values.items)) }
    {
        let place = self.values.len();
        self.values.push(value)?;
        if let Some(key) = key {
            drop(self.places.insert(key, place)?);
        }
        Ok(())
    }

    // Passes over an object of another kind.
    fn pass(&mut self, value: &Value)
        ensures { self.new.values ≡ self.old.values }
    {
        self.passed.others = self.passed.others.saturating_add(1);
        if is_near(value) {
            self.passed.near = self.passed.near.saturating_add(1);
        }
    }

    // Adds an object, unless its kind is another. One that was seen before stands as it is now: a
    // watch tells that by the object, other inputs by its uid alone.
    fn push_seen(&mut self, alloc: Global, value: Value, watched: bool) -> Result<(), Failure>
        ensures { OnOk result (TakesIn (not watched && not (has_uid (view value)))
            (kept (view value)) (left_of self.old.values.items)
            (left_of self.new.values.items)) }
    {
        if is_other(&value) {
            self.pass(&value);
            return Ok(());
        }
        let key = identity(alloc, &value)?;
        let again = watched || uid_of(&value).is_some();
        self.put(key, Some(value), again)
    }

    // Leaves an object out that was deleted.
    fn leave(&mut self, alloc: Global, value: &Value) -> Result<(), Failure>
        ensures { OnOk result (TakesIn false [] (left_of self.old.values.items)
            (left_of self.new.values.items)) }
    {
        if is_other(value) {
            self.pass(value);
            return Ok(());
        }
        let key = identity(alloc, value)?;
        self.put(key, None, true)
    }

    // Takes an event of a watch.
    fn push_event(&mut self, alloc: Global, event: Event, object: Value) -> Result<(), Failure>
        ensures { OnOk result (TakesIn false (event_objects event (view object))
            (left_of self.old.values.items) (left_of self.new.values.items)) }
    {
        match event {
            Event::Seen => self.push_seen(alloc, object, true),
            Event::Deleted => self.leave(alloc, &object),
            Event::Mark => {
                self.passed.marks = self.passed.marks.saturating_add(1);
                Ok(())
            }
        }
    }

    // Adds items of this kind and version.
    fn push_typed(
        &mut self,
        alloc: Global,
        items: Vec<Value>,
        kind: Option<&str>,
        version: Option<&str>,
    ) -> Result<(), Failure>
        ensures { OnOk result (TakesIn
            (list_all (λ o. not (has_uid o)) (map (typed (option_map (λ s. s.now) kind.entry)
            (option_map (λ s. s.now) version.entry)) (map view items.items)))
            (flat_map kept (map (typed (option_map (λ s. s.now) kind.entry)
            (option_map (λ s. s.now) version.entry)) (map view items.items)))
            (left_of self.old.values.items) (left_of self.new.values.items)) }
    {
        for item in items {
            let item = typed(alloc, item, kind, version)?;
            self.push_seen(alloc, item, false)?;
        }
        Ok(())
    }

    // Adds the items of a list, which may say their kind.
    fn push_listed(&mut self, alloc: Global, kind: Option<&str>, list: Value) -> Result<(), Failure>
        ensures { OnOk result (TakesIn
            (list_all (λ o. not (has_uid o)) (items_of_kind (option_map (λ s. s.now) kind.entry)
            (view list)))
            (flat_map kept (items_of_kind (option_map (λ s. s.now) kind.entry) (view list)))
            (left_of self.old.values.items) (left_of self.new.values.items)) }
    {
        let version = match text_at(&list, "apiVersion") {
            Some(version) => Some(String::from_str(alloc, version)?),
            None => None,
        };
        let items = into_items(alloc, list);
        let version = version.as_ref().map(|text| text.as_str());
        self.push_typed(alloc, items, kind, version)
    }

    // Adds what a value says that is no event.
    fn push_objects(&mut self, alloc: Global, value: Value) -> Result<(), Failure>
        ensures { OnOk result (TakesIn (list_once (list_kind (view value)) (view value))
            (list_objects (list_kind (view value)) (view value))
            (left_of self.old.values.items) (left_of self.new.values.items)) }
    {
        match list_kind(&value) {
            Some(kind) => self.push_listed(alloc, kind, value),
            None => self.push_seen(alloc, value, false),
        }
    }

    // Adds what a value says that is no array.
    fn push_one(&mut self, alloc: Global, mut value: Value) -> Result<(), Failure>
        ensures { OnOk result (TakesIn (says_once (view value)) (objects_said (view value))
            (left_of self.old.values.items) (left_of self.new.values.items)) }
    {
        match event_of(&value) {
            Some(event) => {
                let object = value.get_mut("object").map(Value::take);
                self.push_event(alloc, event, object.unwrap_or(Value::Null))
            }
            None => self.push_objects(alloc, value),
        }
    }

    // Adds what the values of an array say.
    fn push_all(&mut self, alloc: Global, values: Vec<Value>) -> Result<(), Failure>
        ensures { OnOk result (TakesIn (list_all says_once (map view values.items))
            (flat_map objects_said (map view values.items))
            (left_of self.old.values.items) (left_of self.new.values.items)) }
    {
        for value in values {
            self.push_one(alloc, value)?;
        }
        Ok(())
    }

    // Adds what a value says: an object, those of a list or an array, an event, or nothing.
    #[tactic(auto, using(crate::proofs::ObjectLists::array_takes))]
    fn push(&mut self, alloc: Global, value: Value) -> Result<(), Failure>
        ensures { OnOk result (TakesIn (are_said_once (view value)) (objects_in (view value))
            (left_of self.old.values.items) (left_of self.new.values.items)) }
    {
        match value {
            Value::Null => Ok(()),
            Value::Array(values) => {
                self.push_all(alloc, values)?;
                Ok(())
            }
            value => self.push_one(alloc, value),
        }
    }

    // The objects that are left.
    #[tactic(auto, using(crate::proofs::ObjectLists::left_on, crate::proofs::ObjectLists::left_out))]
    fn into_left(self, alloc: Global) -> Result<Vec<Value>, Failure>
        ensures { IfOk result (λ v. map view v.items ≡ left_of self.values.items) }
    {
        let Items { values, .. } = self;
        let mut left = Vec::with_capacity(alloc, values.len())?;
        for value in values {
            if let Some(value) = value {
                left.push(value)?;
            }
        }
        Ok(left)
    }
}

// The objects in values.
fn items_in(alloc: Global, values: Vec<Value>) -> Result<Items, Failure>
    ensures { IfOk result (λ items. TakesIn (list_all are_said_once (map view values.items))
        (flat_map objects_in (map view values.items)) [] (left_of items.values.items)) }
{
    let mut items = Items::new(alloc);
    for value in values {
        items.push(alloc, value)?;
    }
    Ok(items)
}

// The list of objects, as `kubectl get` prints it.
#[tactic(auto)]
fn list_value(alloc: Global, items: Items) -> Result<Value, Failure>
    ensures { IfOk result (λ v. view v ≡ list_of (left_of items.values.items)) }
{
    let mut members = Map::new(alloc);
    put_text(alloc, &mut members, "apiVersion", "v1")?;
    put_text(alloc, &mut members, "kind", "List")?;
    let left = items.into_left(alloc)?;
    put(alloc, &mut members, "items", Value::Array(left))?;
    Ok(Value::Object(members))
}

/// The list of the objects in values, and what is passed over.
pub(crate) fn list_for(alloc: Global, values: Vec<Value>) -> Result<(Value, Passed), Failure>
    ensures { IfOk result (λ t. IsListFor (map view values.items) (view t.0)) }
{
    let items = items_in(alloc, values)?;
    let passed = items.passed;
    Ok((list_value(alloc, items)?, passed))
}
