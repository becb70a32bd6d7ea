//! Laws about values of trees.
ghost use Rattle.std.specs.Prelude.{◌≡◌, ◌≤◌, ◌⊎◌, ℕ, List, false, Ok, Err};
ghost use Rattle.carrier_model.specs.Tree.{Message};
ghost use Rattle.carrier_model.specs.Trees.{IsTree};
ghost use Rattle.serde_json.specs.Data.{Data, depth};
ghost use Rattle.serde_json.specs.Read.{max_depth};
ghost use Rattle.serde_json.specs.Written.{has_float};
ghost use Rattle.json_model.specs.ByteTrees.{HasBytes};
ghost use Rattle.json_model.specs.JsonMeanings.{JsonMeans, TextMeansTree, FirstJsonFault};
ghost use Rattle.json_model.specs.MessageForms.{json_of, read_json};
ghost use Rattle.json_model.specs.Faults.{JsonFault};

/// The value of a message has no floats.
pub fn values_have_no_floats()
    ensures { (t : Message) → has_float (json_of t) ≡ false }
{}

/// Arrays and objects nest at most 127 deep in the value of a tree, so that it reads back.
pub fn values_are_shallow()
    ensures { (t : Message) → IsTree t → depth (json_of t) ≤ max_depth }
{}

/// The value of a tree of bytes means that tree.
pub fn values_mean_their_tree()
    ensures { (t : Message) → HasBytes t → IsTree t → JsonMeans (json_of t) t }
{}

/// A value means a tree or has a first fault, and not both; and it means one tree at most, which is what it is read as.
pub fn values_are_exact()
    ensures either { (v : Data) → ((t : Message) × JsonMeans v t) ⊎ ((g : JsonFault) × (read_json v ≡ Err g)) }
    ensures meant { (v : Data) (t : Message) → read_json v ≡ Ok t → JsonMeans v t }
    ensures read { (v : Data) (t : Message) → JsonMeans v t → read_json v ≡ Ok t }
    ensures one { (v : Data) (t u : Message) → JsonMeans v t → JsonMeans v u → u ≡ t }
    ensures apart { (v : Data) (t : Message) (g : JsonFault) → JsonMeans v t → read_json v ≡ Err g → ⊥ }
{}

/// A text means a tree or has a first fault, and not both; it means one tree at most, and has one first fault at most.
pub fn texts_are_exact()
    ensures either { (b : List ℕ) → ((t : Message) × TextMeansTree b t) ⊎ ((g : JsonFault) × FirstJsonFault b g) }
    ensures one { (b : List ℕ) (t u : Message) → TextMeansTree b t → TextMeansTree b u → u ≡ t }
    ensures single { (b : List ℕ) (g h : JsonFault) → FirstJsonFault b g → FirstJsonFault b h → h ≡ g }
    ensures apart { (b : List ℕ) (t : Message) (g : JsonFault) → TextMeansTree b t → FirstJsonFault b g → ⊥ }
{}

/// What a value means keeps to what trees keep to.
pub fn meant_trees_are_trees()
    ensures { (v : Data) (t : Message) → JsonMeans v t → IsTree t }
{}
