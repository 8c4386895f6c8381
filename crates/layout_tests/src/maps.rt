// One map, as Tiled 1.8.2 writes it and as others print it.

/// By Tiled.
pub const TILED: &str = r#"{ "compressionlevel":-1,
 "height":2,
 "infinite":false,
 "layers":[
        {
         "data":[1, 2, 3, 0, 1, 4],
         "height":2,
         "id":1,
         "name":"H\u00f6he",
         "opacity":1,
         "type":"tilelayer",
         "visible":true,
         "width":3,
         "x":0,
         "y":0
        }, 
        {
         "draworder":"topdown",
         "id":2,
         "name":"Things",
         "objects":[
                {
                 "height":16,
                 "id":1,
                 "name":"door",
                 "rotation":0,
                 "type":"",
                 "visible":true,
                 "width":16,
                 "x":8,
                 "y":12.5
                }, 
                {
                 "height":0,
                 "id":2,
                 "name":"sign",
                 "rotation":1e-05,
                 "text":
                    {
                     "text":"a \"b\"",
                     "wrap":true
                    },
                 "type":"",
                 "visible":true,
                 "width":0,
                 "x":0.1,
                 "y":413.333333333333
                }],
         "opacity":1,
         "type":"objectgroup",
         "visible":true,
         "x":0,
         "y":0
        }],
 "nextlayerid":4,
 "nextobjectid":3,
 "orientation":"orthogonal",
 "properties":[
        {
         "name":"song",
         "type":"string",
         "value":"sea\/calm.ogg"
        }],
 "renderorder":"right-down",
 "tiledversion":"1.8.2",
 "tileheight":16,
 "tilesets":[
        {
         "columns":2,
         "firstgid":1,
         "image":"tiles.png",
         "imageheight":32,
         "imagewidth":32,
         "margin":0,
         "name":"tiles",
         "spacing":0,
         "tilecount":4,
         "tileheight":16,
         "tileoffset":
            {
             "x":0,
             "y":4
            },
         "tilewidth":16
        }],
 "tilewidth":16,
 "type":"map",
 "version":"1.8",
 "width":3
}"#;

/// By Tiled, asked to minimize.
pub const MINIMIZED: &str =
    r#"{"compressionlevel":-1,"height":2,"infinite":false,"layers":[{"data":[1,2,3,0,1,4],"height":2,"id":1,"name":"H\u00f6he","opacity":1,"type":"tilelayer","visible":true,"width":3,"x":0,"y":0},{"draworder":"topdown","id":2,"name":"Things","objects":[{"height":16,"id":1,"name":"door","rotation":0,"type":"","visible":true,"width":16,"x":8,"y":12.5},{"height":0,"id":2,"name":"sign","rotation":1e-05,"text":{"text":"a \"b\"","wrap":true},"type":"","visible":true,"width":0,"x":0.1,"y":413.333333333333}],"opacity":1,"type":"objectgroup","visible":true,"x":0,"y":0}],"nextlayerid":4,"nextobjectid":3,"orientation":"orthogonal","properties":[{"name":"song","type":"string","value":"sea\/calm.ogg"}],"renderorder":"right-down","tiledversion":"1.8.2","tileheight":16,"tilesets":[{"columns":2,"firstgid":1,"image":"tiles.png","imageheight":32,"imagewidth":32,"margin":0,"name":"tiles","spacing":0,"tilecount":4,"tileheight":16,"tileoffset":{"x":0,"y":4},"tilewidth":16}],"tilewidth":16,"type":"map","version":"1.8","width":3}"#;

/// By `json.dumps` of Python, indented by 4.
pub const PYTHON: &str = r#"{
    "compressionlevel": -1,
    "height": 2,
    "infinite": false,
    "layers": [
        {
            "data": [
                1,
                2,
                3,
                0,
                1,
                4
            ],
            "height": 2,
            "id": 1,
            "name": "Höhe",
            "opacity": 1,
            "type": "tilelayer",
            "visible": true,
            "width": 3,
            "x": 0,
            "y": 0
        },
        {
            "draworder": "topdown",
            "id": 2,
            "name": "Things",
            "objects": [
                {
                    "height": 16,
                    "id": 1,
                    "name": "door",
                    "rotation": 0,
                    "type": "",
                    "visible": true,
                    "width": 16,
                    "x": 8,
                    "y": 12.5
                },
                {
                    "height": 0,
                    "id": 2,
                    "name": "sign",
                    "rotation": 1e-05,
                    "text": {
                        "text": "a \"b\"",
                        "wrap": true
                    },
                    "type": "",
                    "visible": true,
                    "width": 0,
                    "x": 0.1,
                    "y": 413.333333333333
                }
            ],
            "opacity": 1,
            "type": "objectgroup",
            "visible": true,
            "x": 0,
            "y": 0
        }
    ],
    "nextlayerid": 4,
    "nextobjectid": 3,
    "orientation": "orthogonal",
    "properties": [
        {
            "name": "song",
            "type": "string",
            "value": "sea/calm.ogg"
        }
    ],
    "renderorder": "right-down",
    "tiledversion": "1.8.2",
    "tileheight": 16,
    "tilesets": [
        {
            "columns": 2,
            "firstgid": 1,
            "image": "tiles.png",
            "imageheight": 32,
            "imagewidth": 32,
            "margin": 0,
            "name": "tiles",
            "spacing": 0,
            "tilecount": 4,
            "tileheight": 16,
            "tileoffset": {
                "x": 0,
                "y": 4
            },
            "tilewidth": 16
        }
    ],
    "tilewidth": 16,
    "type": "map",
    "version": "1.8",
    "width": 3
}
"#;

/// By `JSON.stringify` of Node, indented by 2.
pub const NODE: &str = r#"{
  "compressionlevel": -1,
  "height": 2,
  "infinite": false,
  "layers": [
    {
      "data": [
        1,
        2,
        3,
        0,
        1,
        4
      ],
      "height": 2,
      "id": 1,
      "name": "Höhe",
      "opacity": 1,
      "type": "tilelayer",
      "visible": true,
      "width": 3,
      "x": 0,
      "y": 0
    },
    {
      "draworder": "topdown",
      "id": 2,
      "name": "Things",
      "objects": [
        {
          "height": 16,
          "id": 1,
          "name": "door",
          "rotation": 0,
          "type": "",
          "visible": true,
          "width": 16,
          "x": 8,
          "y": 12.5
        },
        {
          "height": 0,
          "id": 2,
          "name": "sign",
          "rotation": 0.00001,
          "text": {
            "text": "a \"b\"",
            "wrap": true
          },
          "type": "",
          "visible": true,
          "width": 0,
          "x": 0.1,
          "y": 413.333333333333
        }
      ],
      "opacity": 1,
      "type": "objectgroup",
      "visible": true,
      "x": 0,
      "y": 0
    }
  ],
  "nextlayerid": 4,
  "nextobjectid": 3,
  "orientation": "orthogonal",
  "properties": [
    {
      "name": "song",
      "type": "string",
      "value": "sea/calm.ogg"
    }
  ],
  "renderorder": "right-down",
  "tiledversion": "1.8.2",
  "tileheight": 16,
  "tilesets": [
    {
      "columns": 2,
      "firstgid": 1,
      "image": "tiles.png",
      "imageheight": 32,
      "imagewidth": 32,
      "margin": 0,
      "name": "tiles",
      "spacing": 0,
      "tilecount": 4,
      "tileheight": 16,
      "tileoffset": {
        "x": 0,
        "y": 4
      },
      "tilewidth": 16
    }
  ],
  "tilewidth": 16,
  "type": "map",
  "version": "1.8",
  "width": 3
}"#;
