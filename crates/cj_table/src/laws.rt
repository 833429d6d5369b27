ghost use Rattle.std.specs.Prelude.{◌≡◌, ◌⊎◌, Some, None};
ghost use Rattle.std.specs.Cmp.{IsTotalOrder};
ghost use Rattle.std.specs.FinMap as map;
ghost use Rattle.cj_types.specs.Keys.{Place, place_cmp};
ghost use Rattle.cj_table.specs.Apart.{PlacesApart, NumbersApart};

/// The laws of maps by key: the order is total and separates any two keys; which value a key has
/// after an insert and after a removal; removing a key undoes its insertion.
pub fn table_laws<X>()
    ensures total { IsTotalOrder place_cmp }
    ensures exact { map.IsAntisymmetric place_cmp }
    ensures at_put { (m : map.FinMap place_cmp X) (k : Place) (v : X) (q : Place) →
        ((q ≡ k) × (map.get (map.insert m k v) q ≡ Some v)) ⊎
        (map.get (map.insert m k v) q ≡ map.get m q) }
    ensures put { (m : map.FinMap place_cmp X) (k : Place) (v : X) →
        map.get (map.insert m k v) k ≡ Some v }
    ensures at_removal { (m : map.FinMap place_cmp X) (k q : Place) →
        ((q ≡ k) × (map.get (map.remove m k) q ≡ None)) ⊎
        (map.get (map.remove m k) q ≡ map.get m q) }
    ensures removal { (m : map.FinMap place_cmp X) (k : Place) → map.get (map.remove m k) k ≡ None }
    ensures undone { (m : map.FinMap place_cmp X) (k : Place) (v : X) → map.get m k ≡ None →
        map.remove (map.insert m k v) k ≡ m }
{}

/// Which value any key has after an insert or a removal at one key, in maps by key and in maps by
/// number.
pub fn apart_laws<X>()
    ensures places { PlacesApart X }
    ensures numbers { NumbersApart X }
{}
