//! What the messages of a session mean: laws over the definitions alone.
ghost use Rattle.std.specs.Prelude.{◌≡◌, ◌++◌, ◌∷◌, [], ℕ, List, reverse};
ghost use Rattle.ipfix_session.specs.Meaning.{domain_of, expected_number, meaning_of, records_after, both_records, records_meant};

/// Reading message by message is the meaning's step: what further messages of a session mean is
/// what the first of them mean, and then the others by a session that stands for the first too. One
/// message brings the records of its meaning, each with the message's domain.
pub fn messages_join()
    ensures joined { (older first others : List (List ℕ))
        → records_after older (first ++ others)
        ≡ both_records (records_after older first) (records_after (reverse first ++ older) others) }
    ensures step { (older : List (List ℕ)) (message : List ℕ)
        → records_after older (message ∷ [])
        ≡ records_meant (domain_of message) (meaning_of older message) }
{}

/// What items of a message hold is what the first of them hold, and then the others, which are read over the first too; the
/// first fault among them is the fault of all. One item holds what it says over the items before it.
pub fn items_join()
    ensures joined { (older : List Item) (message : List ℕ) (first others : List Item)
        → contents_after older message (first ++ others)
        ≡ both_read (contents_after older message first)
        (contents_after (reverse first ++ older) message others) }
    ensures step { (older : List Item) (message : List ℕ) (item : Item)
        → contents_after older message (item ∷ []) ≡ item_contents older message item }
{}

ghost use Rattle.std.specs.Prelude.{Some, Ok, ◌↔◌};
ghost use Rattle.sequences.specs.Octets.{AreOctets};
ghost use Rattle.ipfix_template.specs.declared.template.Template.{Template};
ghost use Rattle.ipfix_template.specs.Template.{IsAcceptable};
ghost use Rattle.ipfix_template.specs.Values.{records_in};
ghost use Rattle.ipfix_message.specs.declared.item.Item.{Item};
ghost use Rattle.ipfix_session.specs.InForce.{template_in_force};
ghost use Rattle.ipfix_session.specs.Contents.{item_contents, contents_after, both_read};
ghost use Rattle.ipfix_session.specs.LastDefinition.{IsInForce};
ghost use Rattle.ipfix_session.specs.LastMessage.{IsExpected};
ghost use Rattle.ipfix_session.specs.DataSetContent.{AreRecords};

/// The template in force for an ID is what the last item that decides on it defines, where all
/// templates of its kind were not withdrawn after it (RFC 7011, section 8.1). No other template is
/// in force.
pub fn last_definition_is_in_force()
    ensures { (id : ℕ) (items : List Item) (t : Template)
        → (template_in_force id items ≡ Some t) ↔ IsInForce id items t }
{}

/// The number that a domain's next message is expected to have is the one after the domain's last
/// message, where that one has a next number (RFC 7011, section 3.1). No other number is expected.
pub fn last_message_sets_the_number()
    ensures { (domain : ℕ) (messages : List (List ℕ)) (number : ℕ)
        → (expected_number domain messages ≡ Some number) ↔ IsExpected domain messages number }
{}

/// What is read of a Data Set's content is its records, one after another, and padding; and such
/// records are read (RFC 7011, sections 3.3.1 and 3.4.3). Where the content is no such list, a
/// record runs past the end.
pub fn records_are_read()
    ensures found { (t : Template) (octets : List ℕ) (rows : List (List (List ℕ))) → IsAcceptable t
        → AreOctets octets → records_in t octets ≡ Ok rows → AreRecords t octets rows }
    ensures only { (t : Template) (octets : List ℕ) (rows : List (List (List ℕ))) → IsAcceptable t
        → AreRecords t octets rows → records_in t octets ≡ Ok rows }
{}

ghost use Rattle.ipfix_message.specs.Reading.{items_of};
ghost use Rattle.ipfix_session.specs.Meaning.{items_of_domain, contents_of};
ghost use Rattle.ipfix_session.specs.Unchanging.{BringNoTemplates, AgreeOn, in_force_after};

/// What a message holds that brings no template depends on the templates of its Data Sets alone.
/// After other messages of its session it holds as much, where the IDs of its Data Sets have these
/// templates then too.
pub fn same_templates_read_the_same()
    ensures items { (older newer : List Item) (message : List ℕ) (said : List Item)
        → BringNoTemplates said
        → AgreeOn (λ id. template_in_force id older) (λ id. template_in_force id newer) said
        → contents_after older message said ≡ contents_after newer message said }
    ensures messages { (older newer : List (List ℕ)) (message : List ℕ) (said : List Item)
        → items_of message ≡ Ok said → BringNoTemplates said
        → AgreeOn (in_force_after (domain_of message) older)
        (in_force_after (domain_of message) newer) said
        → contents_of older message ≡ contents_of newer message }
{}
